//! The law of requests: a function that does nothing, and whose clause is proved.

ghost use Rattle.resp_args.specs.Args.{Args};
ghost use Rattle.resp_server.specs.RequestLaw.{LawOfReading};

/// What a command packs is read as the request of its arguments, and as nothing else.
pub fn law_of_reading()
    ensures law { (args : Args) → LawOfReading args }
{}
