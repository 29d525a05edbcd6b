//! What holds of the definitions: each function does nothing, and its contract is the law.
ghost use Rattle.type_verifier.specs.Laws.{WalksAreInOrder, MethodsAreInOrder, MethodsAreRefused, ClassesAreInOrder, DeclaredFramesStand, JumpsAreFollowed, CodeGoesOn, FinalFaultsAskNothing, CodelessClassesAreSound};

/// The questions of a walk over instructions are those of the instructions, each in the frame before it (the declared one, or
/// else that after the instruction before), one after the other, up to the first that is refused. The place of that one is the
/// fault. A method's questions are those before its instructions and then these, and a class's are those of its methods in
/// their order, up to the first that has a fault.
pub fn questions_are_in_order()
    ensures walks { WalksAreInOrder }
    ensures methods { MethodsAreInOrder }
    ensures classes { ClassesAreInOrder }
{}

/// A method without code bytes, without a first frame, or without frames that stand at instructions has its fault at place 0
/// and asks nothing.
pub fn methods_are_refused()
    ensures { MethodsAreRefused }
{}

/// The frame before an instruction is the one that is declared at its place, where there is one. Behind an instruction that is
/// typed and doesn't go on stands a declared frame, or the code ends there, and behind one that goes on the code doesn't end
/// (JVMS 4.10.1.6).
pub fn frames_stand()
    ensures declared { DeclaredFramesStand }
    ensures jumps { JumpsAreFollowed }
    ensures within { CodeGoesOn }
{}

/// A class that extends a final one or overrides a final method has its fault at method 0 and place 0 and asks nothing. A class
/// that breaks nothing so and whose methods have no code asks nothing and has no fault.
pub fn some_classes_ask_nothing()
    ensures faulty { FinalFaultsAskNothing }
    ensures sound { CodelessClassesAreSound }
{}
