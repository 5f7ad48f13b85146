//! Laws of HTML as it is written here, as the contracts of functions that do nothing.
ghost use Rattle.reg_pages.specs.Escape.{TextsAreInert};
ghost use Rattle.reg_pages.specs.Nesting.{TagsAreClosed};

/// No text becomes markup: what stands for a text on a page has no `<`, `>`, `"` or `'`, and no `&` but
/// that of `&amp;`, `&lt;`, `&gt;`, `&quot;` or `&#39;`, and reads back as that text.
#[tactic(auto, using(crate::proofs::Escaping::inert))]
pub fn texts_are_inert()
    ensures { TextsAreInert }
{}

/// The bytes of every page are those of its tokens, and each tag that they open they close, the last
/// first.
#[tactic(auto, using(crate::proofs::NestedTags::nested))]
pub fn tags_are_closed()
    ensures { TagsAreClosed }
{}
