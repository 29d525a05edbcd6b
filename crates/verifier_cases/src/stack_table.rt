//! Stack forms, arithmetic, conversions, comparisons and returns.

/// Cases, as `table` describes them.
pub(crate) const STACK: &str = r#"
# pop of a long
method 0x0009 f ()V
code 2 0
lconst_0
pop
return
end
= ! 0 1

# pop2 of a long
method 0x0009 f ()V
code 2 0
lconst_0
pop2
return
end
= ok

# pop2 of half a long
method 0x0009 f ()V
code 3 0
lconst_0
iconst_0
pop2
return
end
= ! 0 2

# dup of nothing
method 0x0009 f ()V
code 2 0
dup
return
end
= ! 0 0

# dup of a double
method 0x0009 f ()V
code 4 0
dconst_0
dup
return
end
= ! 0 1

# dup2 of two ints
method 0x0009 f ()I
code 4 0
iconst_0
iconst_1
dup2
iadd
iadd
iadd
ireturn
end
= ok

# dup2 of a long
method 0x0009 f ()J
code 4 0
lconst_0
dup2
ladd
lreturn
end
= ok

# dup2 that splits a long
method 0x0009 f ()V
code 5 0
lconst_0
iconst_0
dup2
return
end
= ! 0 2

# dup_x1
method 0x0009 f ()I
code 3 0
aconst_null
iconst_1
dup_x1
pop
pop
ireturn
end
= ok

# dup_x1 that splits a long
method 0x0009 f ()V
code 4 0
lconst_0
iconst_0
dup_x1
return
end
= ! 0 2

# dup_x2 over a long
method 0x0009 f ()I
code 4 0
lconst_0
iconst_0
dup_x2
pop
l2i
iadd
ireturn
end
= ok

# dup_x2 over two references
method 0x0009 f ()I
code 4 0
aconst_null
aconst_null
iconst_0
dup_x2
pop
pop
pop
ireturn
end
= ok

# dup_x2 that splits a double
method 0x0009 f ()V
code 5 0
dconst_0
iconst_0
iconst_0
dup_x2
return
end
= ! 0 3

# dup2_x1 of a long
method 0x0009 f ()J
code 5 0
iconst_0
lconst_0
dup2_x1
pop2
pop
lreturn
end
= ok

# dup2_x1 over a long
method 0x0009 f ()V
code 6 0
lconst_0
lconst_0
dup2_x1
return
end
= ! 0 2

# dup2_x2 of longs
method 0x0009 f ()J
code 6 0
lconst_0
lconst_1
dup2_x2
ladd
ladd
lreturn
end
= ok

# dup2_x2 without room
method 0x0009 f ()V
code 5 0
lconst_0
lconst_1
dup2_x2
return
end
= ! 0 2

# swap
method 0x0009 f ()I
code 2 0
iconst_0
aconst_null
swap
ireturn
end
= ok

# swap of a long
method 0x0009 f ()V
code 3 0
iconst_0
lconst_0
swap
return
end
= ! 0 2

# swap of the other long
method 0x0009 f ()V
code 3 0
lconst_0
iconst_0
swap
return
end
= ! 0 2

# a shift of a long
method 0x0009 f ()J
code 3 0
lconst_0
iconst_1
lshl
lreturn
end
= ok

# a shift by a long
method 0x0009 f ()V
code 4 0
lconst_0
lconst_0
lshl
return
end
= ! 0 2

# a shift of an int
method 0x0009 f ()I
code 2 0
iconst_0
iconst_1
iushr
ireturn
end
= ok

# an int and a long
method 0x0009 f ()V
code 3 0
iconst_0
lconst_0
iadd
return
end
= ! 0 2

# arithmetic of each letter
method 0x0009 f ()V
code 4 0
iconst_0
iconst_1
idiv
ineg
pop
lconst_0
lconst_1
lrem
lneg
pop2
fconst_0
fconst_1
fmul
fneg
pop
dconst_0
dconst_1
dsub
dneg
pop2
lconst_0
lconst_1
lxor
pop2
iconst_0
iconst_1
ior
pop
return
end
= ok

# ineg of a long
method 0x0009 f ()V
code 2 0
lconst_0
ineg
return
end
= ! 0 1

# frem of ints
method 0x0009 f ()V
code 2 0
iconst_0
iconst_0
frem
return
end
= ! 0 2

# comparisons
method 0x0009 f ()I
code 5 0
lconst_0
lconst_1
lcmp
fconst_0
fconst_1
fcmpl
pop
dconst_0
dconst_1
dcmpg
iadd
ireturn
end
= ok

# lcmp of ints
method 0x0009 f ()V
code 2 0
iconst_0
iconst_0
lcmp
return
end
= ! 0 2

# conversions
method 0x0009 f ()I
code 2 0
iconst_0
i2l
l2f
f2d
d2i
i2b
i2c
i2s
i2f
f2l
l2d
d2f
f2i
i2d
d2l
l2i
ireturn
end
= ok

# l2i of an int
method 0x0009 f ()V
code 2 0
iconst_0
l2i
return
end
= ! 0 1

# i2l without room
method 0x0009 f ()V
code 1 0
iconst_0
i2l
return
end
= ! 0 1

# ireturn where nothing is returned
method 0x0009 f ()V
code 1 0
iconst_0
ireturn
end
= ! 0 1

# return where an int is
method 0x0009 f ()I
code 1 0
return
end
= ! 0 0

# ireturn of a boolean
method 0x0009 f ()Z
code 1 0
iconst_0
ireturn
end
= ok

# lreturn where an int is returned
method 0x0009 f ()I
code 2 0
lconst_0
lreturn
end
= ! 0 1

# areturn of an int
method 0x0009 f ()Ljava/lang/Object;
code 1 0
iconst_0
areturn
end
= ! 0 1

# ireturn where an object is returned
method 0x0009 f ()Ljava/lang/Object;
code 1 0
iconst_0
ireturn
end
= ! 0 1

# a return with more on the stack
method 0x0009 f ()I
code 2 0
iconst_0
iconst_1
ireturn
end
= ok
"#;
