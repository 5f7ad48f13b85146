//! Laws of requests, over their definitions.
ghost use Rattle.reg_head.specs.Request.{AskOneThing};
ghost use Rattle.reg_head.specs.Reading.{AskByAllTheirBytes};

/// Bytes ask one thing: a request, or what is wrong with them first.
pub fn bytes_ask_one_thing()
    ensures { AskOneThing }
{}

/// What was read of a reader whose bytes are known asks what all its bytes ask, in whatever pieces
/// they came.
pub fn readers_ask_by_all_their_bytes()
    ensures { AskByAllTheirBytes }
{}
