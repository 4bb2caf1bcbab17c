//! What holds of every session with the one caller of a desk: each clause is a theorem over the
//! definitions alone.
ghost use Rattle.mf_session.specs.Laws.{CutInputsHaveOneOutput, WholeInputsHaveOneOutput};

/// Where no line found no memory, what a session writes, and the log that it leaves, are a function
/// of the desk and of the input that it read to its end, whatever the pieces were in which the
/// input came.
pub fn whole_inputs_have_one_output()
    ensures { WholeInputsHaveOneOutput }
{}

/// Where no line found no memory, what a session writes, and the log that it leaves, are a function
/// of the desk and of the bytes that it took before its source or a cap stopped it.
pub fn cut_inputs_have_one_output()
    ensures { CutInputsHaveOneOutput }
{}
