//! What holds of every message that is spelled: each clause is a theorem over the definitions
//! alone.
ghost use Rattle.mf_tree.specs.Laws.{AnnotationIsTested, EqualityIsTested, MarksMakeNoDifference, SpellsNodes};

/// Every message that a text spells is a node.
pub fn spelled_messages_are_nodes()
    ensures { SpellsNodes }
{}

/// Two names are equal where the texts that spell them differ in marks of direction alone.
pub fn marks_make_no_difference()
    ensures { MarksMakeNoDifference }
{}

/// A variable is annotated where the test that goes from declaration to declaration says so: as
/// many steps as there are declarations are enough, and a circle of declarations annotates nothing.
pub fn annotation_is_tested()
    ensures { AnnotationIsTested }
{}

/// The tests of equality say what equality is: that of Normalization Form C.
pub fn equality_is_tested()
    ensures { EqualityIsTested }
{}
