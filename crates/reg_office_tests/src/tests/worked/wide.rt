//! A registry of 64 ranges that are all of 32 bits, and asks in it with texts of full length, as lines of a
//! script.
use crate::tests::worked::generated::TEXT;
use std::alloc::{AllocError, Global};

// How many ranges there are, and how many values each has.
const RANGES: u32 = 64;

const VALUES: u32 = 67_108_864;

// Their treatments, in turn.
const TREATMENTS: &str =
    "first-come-first-served expert-review specification-required rfc-required ietf-review standards-action iesg-approval private-use experimental-use hierarchical-allocation reserved";

const DEFINES: &str =
    "1700000000 clerk-token-00001 PUT /desk/registries/wide/4294967295 lo,hi,treatment,note\t";

// An ask is made, reviewed and approved, and looked at. `%N` is its reference, `%W` what is wanted and `%T` a
// text.
const ASKED: &str =
    r#"1700000000 alice-token-00001 PUT /requests/%N {"contact":"%T","kind":"code","label":"%T","minute":"%T","registry":"wide","rfc":{"number":99999,"stream":"ietf","track":"standards"},"specification":"%T",%W}
1700000000 clerk-token-00001 PUT /desk/experts/alice/%N/xan
1700000000 xpert-token-00001 PUT /queue/alice/%N {"text":"%T","verdict":"for"}
1700000000 clerk-token-00001 PUT /desk/approve/alice/%N
1700000000 alice-token-00001 GET /requests/%N
"#;

const LOOKS: &str = "1700000000 - GET /registries/wide
1700000000 - GET /listings/registries/wide
1700000000 alice-token-00001 GET /requests
1700000000 xpert-token-00001 GET /queue
1700000000 clerk-token-00001 GET /desk/requests
";

/// The registry is defined; each range is asked for its first and last value, and each treatment for its
/// least; and all is looked at.
pub fn wide(alloc: Global) -> Result<String, AllocError> {
    let asked = ASKED.replace(alloc, "%T", TEXT)?;
    let asked = asked.as_str();
    let mut lines = String::from_str(alloc, DEFINES)?;
    let mut asks = String::new(alloc);
    for place in 0..RANGES {
        let low = place.wrapping_mul(VALUES);
        let high = low.wrapping_add(VALUES).wrapping_sub(1);
        // One of the eleven, in turn.
        let turn = usize::try_from(place % 11).unwrap_or(0);
        let treatment = TREATMENTS.split(' ').nth(turn).unwrap_or("");
        let row = format!(in alloc; "{low},{high},{treatment},{}\t", TEXT)?;
        lines.push_str(row.as_str())?;
        put_value(&mut asks, alloc, asked, low)?;
        put_value(&mut asks, alloc, asked, high)?;
        if place < 11 {
            let wanted = format!(in alloc; "\"least\":\"{treatment}\"")?;
            put_asked(&mut asks, alloc, asked, treatment, wanted.as_str())?;
        }
    }
    lines.push('\n')?;
    lines.push_str(asks.as_str())?;
    lines.push_str(LOOKS)?;
    Ok(lines)
}

// Puts what asks for a value.
fn put_value(asks: &mut String, alloc: Global, asked: &str, value: u32) -> Result<(), AllocError> {
    let name = format!(in alloc; "v-{value}")?;
    let wanted = format!(in alloc; "\"value\":{value}")?;
    put_asked(asks, alloc, asked, name.as_str(), wanted.as_str())
}

// Puts what asks for this, under this reference.
fn put_asked(
    asks: &mut String,
    alloc: Global,
    asked: &str,
    name: &str,
    wanted: &str,
) -> Result<(), AllocError> {
    let named = asked.replace(alloc, "%N", name)?;
    let whole = named.as_str().replace(alloc, "%W", wanted)?;
    asks.push_str(whole.as_str())
}
