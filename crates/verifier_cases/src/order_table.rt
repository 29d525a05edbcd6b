//! The order of questions and faults.

/// Cases, as `table` describes them.
pub(crate) const ORDER: &str = r#"
# a fault of the second method, behind the questions of the first
method 0x0009 f (Lp/X;)Lp/Y;
code 1 1
aload_0
areturn
end
method 0x0009 g (Lp/A;)V
code 1 1
aload_0
iconst_0
invokestatic p/X h (Lp/B;)V
return
end
method 0x0009 h (Lp/C;)Lp/D;
code 1 1
aload_0
areturn
end
= p/X:p/Y ! 1 1

# a question behind a fault is not asked
method 0x0009 f (Lp/X;)Lp/Y;
code 1 1
iconst_0
pop2
aload_0
areturn
end
= ! 0 1

# questions are repeated
method 0x0009 f (Lp/X;)Lp/Y;
code 2 1
aload_0
invokestatic p/T g (Lp/Y;)V
aload_0
areturn
end
= p/X:p/Y p/X:p/Y

# a stack is compared from the deepest
method 0x0009 f (Lp/A;Lp/B;)V
code 3 2
aload_0
aload_1
iconst_0
ifeq There
There:
frame There O:p/A O:p/B | O:p/C O:p/D
pop2
return
end
= p/A:p/C p/B:p/D p/A:p/C p/B:p/D

# locals are compared before the stack
method 0x0009 f (Lp/A;)V
code 2 1
aload_0
iconst_0
ifeq There
There:
frame There O:p/B | O:p/C
pop
return
end
= p/A:p/B p/A:p/C p/A:p/B p/A:p/C

# the lengths of stacks are compared before their items
method 0x0009 f (Lp/A;)V
code 3 1
aload_0
aload_0
iconst_0
ifeq There
There:
frame There O:p/A | O:p/C
pop
return
end
= ! 0 3

# null in a local for a class
method 0x0009 f ()V
code 1 1
aconst_null
astore_0
iconst_0
ifeq There
There:
frame There O:p/A |
return
end
= ok

# parameters that have no room
method 0x0009 f (J)V
code 0 1
return
end
= ! 0 0

# this in an interface
class 0x0600 p/T java/lang/Object
method 0x0001 f ()Lp/Y;
code 1 1
aload_0
areturn
end
= p/T:p/Y

# a stack of fewer items and as many units
method 0x0009 f (Lp/A;)V
code 4 1
aload_0
lconst_0
iconst_0
ifeq There
There:
frame There | O:p/B I I
pop
return
end
= ! 0 3
"#;
