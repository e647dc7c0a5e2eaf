// The laws of the definitions, each on the contract of a function that does nothing.
ghost use Rattle.model.specs.Finish.{EscapeExact, EscapeFirst, Finishing, PrintsPrograms};
ghost use Rattle.model.specs.Exact.{AllExact};
ghost use Rattle.model.specs.Refusals.{RefusalsInOrder};

// A call that uses code is refused as escaped exactly when some cell that it uses can't be finished.
pub fn escapes_exactly()
    ensures { EscapeExact }
{}

// A call refused as escaped names the first cell that it uses and that can't be finished, and how many of its free names are not open.
pub fn escapes_first()
    ensures { EscapeFirst }
{}

// Code that can be finished is finished by some further calls, and printed.
pub fn finishes()
    ensures { Finishing }
{}

// Each granted print is the text of its cell's code, a program in which every printed name belongs to its binder.
pub fn prints_programs()
    ensures { PrintsPrograms }
{}

// A call is refused exactly with the first refusal that applies, and granted exactly when none does; the store's own refusal comes after all of them.
pub fn refuses_first()
    ensures { RefusalsInOrder }
{}

// In every state that calls lead to, each full cell's size, names and type are exact.
pub fn cells_are_exact()
    ensures { AllExact }
{}
