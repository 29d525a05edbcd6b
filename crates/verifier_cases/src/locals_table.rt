//! Constants, loads, stores and `iinc`.

/// Cases, as `table` describes them.
pub(crate) const LOCALS: &str = r#"
# an empty method
method 0x0009 f ()V
code 0 0
return
end
= ok

# a method without code
method 0x0101 f ()V
= ok

# code that falls off its end
method 0x0009 f ()V
code 1 0
iconst_0
end
= ! 0 0

# a branch as the last instruction
method 0x0009 f ()V
code 1 0
Again:
frame Again |
iconst_0
ifeq Again
end
= ! 0 1

# constants of each type
method 0x0009 f ()V
code 9 0
iconst_m1
lconst_0
fconst_0
dconst_1
aconst_null
bipush 1
sipush 2
return
end
= ok

# a constant without room
method 0x0009 f ()V
code 8 0
iconst_m1
lconst_0
fconst_0
dconst_1
aconst_null
bipush 1
sipush 2
return
end
= ! 0 7

# half a unit of room for a long
method 0x0009 f ()V
code 2 0
iconst_0
lconst_0
return
end
= ! 0 1

# an unset local
method 0x0009 f ()I
code 1 1
iload_0
ireturn
end
= ! 0 0

# a parameter
method 0x0009 f (I)I
code 1 1
iload_0
ireturn
end
= ok

# the first half of a long as an int
method 0x0009 f (J)I
code 1 2
iload_0
ireturn
end
= ! 0 0

# the second half of a long as an int
method 0x0009 f (J)I
code 1 2
iload_1
ireturn
end
= ! 0 0

# a long
method 0x0009 f (J)J
code 2 2
lload_0
lreturn
end
= ok

# a long from its second half
method 0x0009 f (J)J
code 2 2
lload_1
lreturn
end
= ! 0 0

# floating locals
method 0x0009 f (FD)D
code 2 3
fload_0
pop
dload_1
dreturn
end
= ok

# a local beyond the last
method 0x0009 f (I)I
code 1 1
iload_1
ireturn
end
= ! 0 0

# a long in the last local
method 0x0009 f ()V
code 2 1
lconst_0
lstore_0
return
end
= ! 0 1

# a store over the second half of a long
method 0x0009 f (J)J
code 2 2
iconst_0
istore_1
lload_0
lreturn
end
= ! 0 2

# a store over the first half of a long
method 0x0009 f (J)I
code 1 2
iconst_0
istore_0
iload_1
ireturn
end
= ! 0 2

# a store over half of a double
method 0x0009 f (D)D
code 2 2
aconst_null
astore_1
dload_0
dreturn
end
= ! 0 2

# a long over an int and half of a long
method 0x0009 f (IJ)J
code 2 3
lconst_0
lstore_0
lload_0
lreturn
end
= ok

# a long over the first half of another
method 0x0009 f (IJ)J
code 2 3
lconst_0
lstore_0
lload_1
lreturn
end
= ! 0 2

# wide locals
method 0x0009 f ()I
code 1 300
iconst_0
istore 299
iload 299
ireturn
end
= ok

# a wide local beyond the last
method 0x0009 f ()I
code 1 300
iconst_0
istore 300
iconst_0
ireturn
end
= ! 0 1

# iinc
method 0x0009 f (I)I
code 1 1
iinc 0 1
iinc 0 1000
iload_0
ireturn
end
= ok

# iinc of a long
method 0x0009 f (J)V
code 0 2
iinc 0 1
return
end
= ! 0 0

# iinc beyond the locals
method 0x0009 f (I)V
code 0 1
iinc 1 1
return
end
= ! 0 0

# null in a local
method 0x0009 f ()Ljava/lang/String;
code 1 1
aconst_null
astore_0
aload_0
areturn
end
= ok

# astore of an int
method 0x0009 f ()V
code 1 1
iconst_0
astore_0
return
end
= ! 0 1

# istore of null
method 0x0009 f ()V
code 1 1
aconst_null
istore_0
return
end
= ! 0 1

# a store of nothing
method 0x0009 f ()V
code 1 1
istore_0
return
end
= ! 0 0
"#;
