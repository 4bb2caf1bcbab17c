//! What holds of every source: each clause is a theorem over the definitions alone.
ghost use Rattle.mf_plan.specs.Laws.{CompilesToOne, IsCompiled};

/// The function `plan_of` of the definitions gives what each source compiles to, and that alone.
pub fn plans_are_compiled()
    ensures { IsCompiled }
{}

/// Each source compiles to one thing.
pub fn each_source_compiles_to_one()
    ensures { CompilesToOne }
{}
