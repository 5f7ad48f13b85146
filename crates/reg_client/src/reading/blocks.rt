//! Reads the listing of blocks.
use csv::{ByteRecord, Reader};
use reg_blocks::block::Block;
use reg_core::holding::Listed;
use reg_core::rows::Rows;
use reg_core::text::Text;
use reg_source::unpublished::Unpublished;
use std::alloc::Global;

/// The blocks of a listing.
pub(super) fn read(alloc: Global, body: &[u8]) -> Result<Rows<Listed>, Unpublished> {
    let mut blocks = Vec::new(alloc);
    for record in Reader::from_reader(alloc, body).into_byte_records() {
        match record {
            Ok(record) => blocks.push(block_of(alloc, &record)?)?,
            Err(_) => return Err(Unpublished::Read),
        }
    }
    Ok(Rows::from_vec(blocks))
}

// The block of a record. A private holder has no address.
fn block_of(alloc: Global, record: &ByteRecord) -> Result<Listed, Unpublished> {
    let block = Block::read(field(record, 1)?).ok_or(Unpublished::Read)?;
    if field(record, 3)?.is_empty() {
        return Ok(Listed {
            block,
            organization: None,
            address: None,
        });
    }
    let organization = text_of(alloc, field(record, 2)?)?;
    let address = text_of(alloc, field(record, 3)?)?;
    Ok(Listed {
        block,
        organization: Some(organization),
        address: Some(address),
    })
}

fn field(record: &ByteRecord, place: usize) -> Result<&[u8], Unpublished> {
    match record.get(place) {
        Some(field) => Ok(field),
        None => Err(Unpublished::Read),
    }
}

/// The text of these bytes.
pub(super) fn text_of(alloc: Global, bytes: &[u8]) -> Result<Text, Unpublished> {
    match Text::read(alloc, bytes)? {
        Some(text) => Ok(text),
        None => Err(Unpublished::Read),
    }
}
