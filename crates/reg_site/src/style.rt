//! How the pages look.
ghost use Rattle.std.specs.Prelude.{◌≡◌};

/// The style sheet of all pages (CSS): light and dark as the reader prefers, and for print, where a table has
/// its heads on each page. The kinds of a picture differ in place and height as well as in colour. On a
/// screen too narrow for eight columns a row of a table becomes a few lines, where policy, day, assignee and
/// count say what they are. A long text is broken anywhere, a number nowhere; a run of long values goes on
/// behind its hyphen. A reference has a column as wide as its longest word, up to a limit. Rules know a table
/// by its class and a cell by its place, which is quick in a table of thousands of rows.
pub const STYLE: &str = "\
:root{color-scheme:light dark;--ink:#1b1f24;--paper:#fff;--line:#c9d1d9;--soft:#fff4c2;--link:#0550ae;\
--used:#06502b;--free:#56a277;--aside:#b98a14;--reserved:#6b7580}
@media screen and (prefers-color-scheme:dark){:root{--ink:#e6e8eb;--paper:#14171a;--line:#3a4148;\
--soft:#3d3620;--link:#7cb7ff;--used:#7be0ae;--free:#2f7550;--aside:#c39a2e;--reserved:#8a949e}}
body{margin:0;background:var(--paper);color:var(--ink);font:1rem/1.5 system-ui,sans-serif;\
overflow-wrap:anywhere}
main{max-width:80rem;margin:0 auto;padding:1rem}
p,main>.note{max-width:48rem}
a{color:var(--link)}
p a,th a{display:inline-block;min-width:1.5rem}
p a{padding:.2rem 0}
p a:not(:last-child){padding-right:.5rem}
time{white-space:nowrap}
table{width:100%;border-collapse:collapse;margin:1.5rem 0}
caption{text-align:left;font-weight:600;padding:.4rem 0}
th,td{text-align:left;vertical-align:baseline;padding:.3em .8em .3em 0;border-bottom:1px solid var(--line)}
th{white-space:nowrap}
th div{white-space:normal}
[colspan]{padding-top:1rem}
.values td:nth-child(2){width:36%}
.values td:nth-child(4),.values td:nth-child(5){overflow-wrap:normal}
.values td:nth-child(6),.values td:nth-child(7){white-space:nowrap}
.registries tbody th{white-space:normal}
.registries td+td{white-space:nowrap}
.changes td{overflow-wrap:normal}
.changes td:nth-child(2),.changes td:nth-child(4){white-space:nowrap}
.changes td:last-child{width:30%;overflow-wrap:anywhere}
tr:target{background:var(--soft)}
td ul{list-style:none;margin:0;padding:0;overflow-wrap:normal}
.note{font-size:.9em;font-weight:400;white-space:normal}
figure{margin:1.5rem 0}
svg{display:block;width:100%;height:1.5rem;print-color-adjust:exact}
rect.assigned,rect.temporary,rect.expired{fill:var(--used)}
rect.free{fill:var(--free)}
rect.aside{fill:var(--aside)}
rect.reserved{fill:var(--reserved)}
figcaption ul{display:flex;flex-wrap:wrap;gap:.2rem 1.2rem;list-style:none;margin:.5rem 0;padding:0}
figcaption li::before{content:'';display:inline-block;box-sizing:border-box;width:1.2rem;height:1.2rem;\
margin-right:.5rem;vertical-align:-.2rem;print-color-adjust:exact;forced-color-adjust:none}
li.assigned::before{background:var(--used)}
li.temporary::before{background:linear-gradient(var(--used) 50%,var(--free) 50%)}
li.expired::before{background:linear-gradient(var(--free) 75%,var(--used) 75%)}
li.free::before{background:var(--free)}
li.aside::before{background:linear-gradient(transparent 33%,var(--aside) 33% 67%,transparent 67%)}
li.reserved::before{background:linear-gradient(transparent 45%,var(--reserved) 45% 55%,transparent 55%)}
@media print,(min-width:72.01rem){\
.values th a{display:block;width:max-content;max-width:8em;white-space:normal}
.values td:nth-child(3){max-width:13em;font-size:.9em;overflow-wrap:break-word;text-wrap:balance}
.values td:nth-child(5){min-width:9em}
.registries td:nth-child(2){min-width:17em}}
@media screen and (max-width:72rem){main{padding:.5rem}thead{position:absolute;clip-path:inset(50%)}
tr{display:flex;flex-wrap:wrap;gap:0 .8rem;padding:.3rem 0;border-bottom:1px solid var(--line)}
th,td{padding:0;border:0}td:empty{display:none}
.values td:nth-child(2),.values td:nth-child(3),.registries td:nth-child(2),\
.changes td:last-child{flex-basis:100%}
.values td:nth-child(5)::before{content:'Policy '}
.values td:nth-child(6)::before{content:'Since '}
.values td:nth-child(7)::before{content:'Expires '}
.values td:nth-child(8)::before{content:'Assignee '}
.registries td:nth-child(3)::before{content:'Assigned '}
.registries td:nth-child(4)::before{content:'Temporary '}
.registries td:nth-child(5)::before{content:'Expired '}
.registries td:nth-child(6)::before{content:'Free '}}
@page{margin:14mm 12mm;@bottom-right{content:counter(page) ' / ' counter(pages);font-size:8pt}}
@media print{body{font-size:9pt;line-height:1.3}.values{font-size:8pt}main{max-width:none;padding:0}a{color:inherit;text-decoration:none}
p:has(a+a){display:none}th,td{padding-right:.5em}.values td:nth-child(5){min-width:6em}
tr,figure{break-inside:avoid}h2,caption,[colspan]{break-after:avoid}}
";

/// The style sheet.
pub fn style() -> &'static str
    ensures { result.now ≡ STYLE.now }
{
    STYLE
}
