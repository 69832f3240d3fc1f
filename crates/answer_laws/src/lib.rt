//! Laws of answers: at most one refusal applies to a line, and a line has one answer.
#![tactic(auto)]

ghost use Rattle.answer_laws.specs.Laws.{OneAnswer, OneDiffer, OneForm, OneGroup, OneListing, OneOutput, OnePairs, OneRefusal, OneSame, OneStates, OneVoigt};

/// The group of a symbol has one listing in the order of operations.
pub fn one_listing()
    ensures { OneListing }
{}

/// At most one refusal applies to a line of a format.
pub fn one_refusal()
    ensures { OneRefusal }
{}

/// A request for forms has one answer.
pub fn one_form()
    ensures { OneForm }
{}

/// A request for the elements of a group has one answer.
pub fn one_group()
    ensures { OneGroup }
{}

/// A request for a Voigt table has one answer.
pub fn one_voigt()
    ensures { OneVoigt }
{}

/// A request whether two groups leave the same tensors has one answer.
pub fn one_same()
    ensures { OneSame }
{}

/// A request for domain states has one answer.
pub fn one_states()
    ensures { OneStates }
{}

/// A request for the components that distinguish domain states has one answer.
pub fn one_differ()
    ensures { OneDiffer }
{}

/// A request for pair classes has one answer.
pub fn one_pairs()
    ensures { OnePairs }
{}

/// A line of a format and a number has one answer.
pub fn one_answer()
    ensures { OneAnswer }
{}

/// An input has one output: the answers of its lines.
pub fn one_output()
    ensures { OneOutput }
{}
