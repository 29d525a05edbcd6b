//! Arrays, casts, monitors and `athrow`.

/// Cases, as `table` describes them.
pub(crate) const ARRAYS: &str = r#"
# elements of each type
method 0x0009 f ([I[J[B[C[S[F[D)V
code 4 7
aload_0
iconst_0
iaload
pop
aload_1
iconst_0
laload
pop2
aload_2
iconst_0
baload
pop
aload_3
iconst_0
caload
pop
aload 4
iconst_0
saload
pop
aload 5
iconst_0
faload
pop
aload 6
iconst_0
daload
pop2
return
end
= ok

# stores of each type
method 0x0009 f ([I[J[Z[C[S[F[D)V
code 4 7
aload_0
iconst_0
iconst_0
iastore
aload_1
iconst_0
lconst_0
lastore
aload_2
iconst_0
iconst_0
bastore
aload_3
iconst_0
iconst_0
castore
aload 4
iconst_0
iconst_0
sastore
aload 5
iconst_0
fconst_0
fastore
aload 6
iconst_0
dconst_0
dastore
return
end
= ok

# an element of null
method 0x0009 f ()J
code 2 0
aconst_null
iconst_0
laload
lreturn
end
= ok

# iaload of longs
method 0x0009 f ([J)V
code 2 1
aload_0
iconst_0
iaload
return
end
= ! 0 2

# baload of booleans
method 0x0009 f ([Z)I
code 2 1
aload_0
iconst_0
baload
ireturn
end
= ok

# baload of chars
method 0x0009 f ([C)I
code 2 1
aload_0
iconst_0
baload
ireturn
end
= ! 0 2

# iaload of a class
method 0x0009 f (Ljava/lang/Object;)I
code 2 1
aload_0
iconst_0
iaload
ireturn
end
= ! 0 2

# an index that is a long
method 0x0009 f ([I)I
code 3 1
aload_0
lconst_0
iaload
ireturn
end
= ! 0 2

# iastore of a long
method 0x0009 f ([I)V
code 4 1
aload_0
iconst_0
lconst_0
iastore
return
end
= ! 0 3

# aaload of a class
method 0x0009 f ([Lp/X;)Lp/Y;
code 2 1
aload_0
iconst_0
aaload
areturn
end
= p/X:p/Y

# aaload of arrays
method 0x0009 f ([[I)[I
code 2 1
aload_0
iconst_0
aaload
areturn
end
= ok

# aaload of ints
method 0x0009 f ([I)Ljava/lang/Object;
code 2 1
aload_0
iconst_0
aaload
areturn
end
= ! 0 2

# aaload of null
method 0x0009 f ()[I
code 2 0
aconst_null
iconst_0
aaload
areturn
end
= ok

# aastore of any object
method 0x0009 f ([Lp/X;Lp/Y;)V
code 3 2
aload_0
iconst_0
aload_1
aastore
return
end
= ok

# aastore of an unfinished object
method 0x0009 f ([Lp/X;)V
code 3 1
aload_0
iconst_0
new p/X
aastore
return
end
= ! 0 5

# aastore into ints
method 0x0009 f ([I)V
code 3 1
aload_0
iconst_0
aconst_null
aastore
return
end
= ! 0 3

# arraylength
method 0x0009 f ([[Lp/X;)I
code 1 1
aload_0
arraylength
ireturn
end
= ok

# arraylength of null
method 0x0009 f ()I
code 1 0
aconst_null
arraylength
ireturn
end
= ok

# arraylength of a class
method 0x0009 f (Ljava/lang/Object;)I
code 1 1
aload_0
arraylength
ireturn
end
= ! 0 1

# newarray of each code
method 0x0009 f ()V
code 1 1
iconst_0
newarray 4
astore_0
iconst_0
newarray 5
astore_0
iconst_0
newarray 6
astore_0
iconst_0
newarray 7
astore_0
iconst_0
newarray 8
astore_0
iconst_0
newarray 9
astore_0
iconst_0
newarray 10
astore_0
iconst_0
newarray 11
astore_0
return
end
= ok

# newarray of ints
method 0x0009 f ()[I
code 1 0
iconst_0
newarray 10
areturn
end
= ok

# newarray of booleans as ints
method 0x0009 f ()[I
code 1 0
iconst_0
newarray 4
areturn
end
= ! 0 3

# newarray of code 3
method 0x0009 f ()V
code 1 0
iconst_0
newarray 3
return
end
= ! 0 1

# newarray of code 12
method 0x0009 f ()V
code 1 0
iconst_0
newarray 12
return
end
= ! 0 1

# anewarray
method 0x0009 f ()[Lp/Y;
code 1 0
iconst_0
anewarray p/X
areturn
end
= p/X:p/Y

# anewarray of arrays
method 0x0009 f ()[[I
code 1 0
iconst_0
anewarray [I
areturn
end
= ok

# a length that is a long
method 0x0009 f ()V
code 2 0
lconst_0
anewarray p/X
return
end
= ! 0 1

# multianewarray
method 0x0009 f ()[[[I
code 2 0
iconst_1
iconst_2
multianewarray [[[I 2
areturn
end
= ok

# multianewarray of more dimensions than it has
method 0x0009 f ()V
code 3 0
iconst_1
iconst_2
iconst_3
multianewarray [[I 3
return
end
= ! 0 3

# multianewarray of no dimension
method 0x0009 f ()V
code 1 0
multianewarray [[I 0
return
end
= ! 0 0

# multianewarray of a class
method 0x0009 f ()V
code 1 0
iconst_1
multianewarray p/X 1
return
end
= ! 0 1

# multianewarray with a length too few
method 0x0009 f ()V
code 2 0
iconst_1
multianewarray [[I 2
return
end
= ! 0 1

# checkcast
method 0x0009 f (Ljava/lang/Object;)Ljava/lang/String;
code 1 1
aload_0
checkcast java/lang/String
areturn
end
= ok

# checkcast of an unfinished object
method 0x0009 f ()V
code 1 0
new p/X
checkcast p/X
return
end
= ! 0 3

# checkcast of an int
method 0x0009 f ()V
code 1 0
iconst_0
checkcast p/X
return
end
= ! 0 1

# instanceof
method 0x0009 f ([I)I
code 1 1
aload_0
instanceof [J
ireturn
end
= ok

# instanceof of what is no class
method 0x0009 f ([I)I
code 1 1
aload_0
instanceof [J
ireturn
end
@code 2 00 01
= ! 0 1

# monitors
method 0x0009 f (Lp/X;)V
code 1 1
aload_0
monitorenter
aload_0
monitorexit
return
end
= ok

# monitorenter of an int
method 0x0009 f ()V
code 1 0
iconst_0
monitorenter
return
end
= ! 0 1

# athrow
method 0x0009 f (Lp/X;)V
code 1 1
aload_0
athrow
end
= p/X:java/lang/Throwable

# athrow of null
method 0x0009 f ()V
code 1 0
aconst_null
athrow
end
= ok

# athrow of an array
method 0x0009 f ([I)V
code 1 1
aload_0
athrow
end
= ! 0 1

# athrow of an int
method 0x0009 f ()V
code 1 0
iconst_0
athrow
end
= ! 0 1

# the most dimensions
method 0x0009 f ()V
code 1 0
iconst_0
anewarray [[[[[[[[[[[[[[[[[[[[[[[[[[[[[[[[[[[[[[[[[[[[[[[[[[[[[[[[[[[[[[[[[[[[[[[[[[[[[[[[[[[[[[[[[[[[[[[[[[[[[[[[[[[[[[[[[[[[[[[[[[[[[[[[[[[[[[[[[[[[[[[[[[[[[[[[[[[[[[[[[[[[[[[[[[[[[[[[[[[[[[[[[[[[[[[[[[[[[[[[[[[[[[[[[[[[[[[[[[[[[[[[[[[[[[[[[[[[[[[[[[[[[[[[[[[[[[I
pop
return
end
= ok

# a dimension too many
method 0x0009 f ()V
code 1 0
iconst_0
anewarray [[[[[[[[[[[[[[[[[[[[[[[[[[[[[[[[[[[[[[[[[[[[[[[[[[[[[[[[[[[[[[[[[[[[[[[[[[[[[[[[[[[[[[[[[[[[[[[[[[[[[[[[[[[[[[[[[[[[[[[[[[[[[[[[[[[[[[[[[[[[[[[[[[[[[[[[[[[[[[[[[[[[[[[[[[[[[[[[[[[[[[[[[[[[[[[[[[[[[[[[[[[[[[[[[[[[[[[[[[[[[[[[[[[[[[[[[[[[[[[[[[[[[[[[[[[[[[[I
pop
return
end
= ! 0 1
"#;
