// The laws of the definitions, each on the contract of a function that does nothing else.
ghost use Rattle.script.specs.Written.{ReadsBack, ReadsOnly};

// A step that is written as bytes is read back.
pub fn steps_read_back()
    ensures { ReadsBack }
{}

// A step is read only where its bytes stand.
pub fn steps_read_only_their_bytes()
    ensures { ReadsOnly }
{}
