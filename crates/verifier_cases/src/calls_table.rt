//! Constants of the pool, fields and calls.

/// Cases, as `table` describes them.
pub(crate) const CALLS: &str = r#"
# constants of the pool
method 0x0009 f ()Ljava/lang/String;
code 2 0
ldc 70000
pop
ldc_w 70001
pop
ldc2_w 5000000000
pop2
ldc "text"
areturn
end
= ok

# a class as a constant
method 0x0009 f ()Ljava/lang/Class;
code 1 0
ldc class [I
areturn
end
= ok

# ldc of a text
method 0x0009 f ()V
code 1 0
ldc "text"
pop
return
end
@code 1 01
= ! 0 0

# ldc2_w of a class
method 0x0009 f ()V
code 2 0
ldc2_w 5
pop2
return
end
@code 1 00 02
= ! 0 0

# static fields
field 0x0008 a J
method 0x0009 f ()V
code 2 0
getstatic p/T a J
putstatic p/T a J
return
end
= ok

# a static field of another type
field 0x0008 a J
method 0x0009 f ()V
code 2 0
iconst_0
putstatic p/T a J
return
end
= ! 0 1

# getstatic without room
method 0x0009 f ()V
code 1 0
getstatic p/T a J
return
end
= ! 0 0

# fields of small types are ints
field 0x0008 a Z
field 0x0008 b B
field 0x0008 c S
field 0x0008 d C
method 0x0009 f ()I
code 2 0
getstatic p/T a Z
putstatic p/T b B
getstatic p/T c S
getstatic p/T d C
iadd
ireturn
end
= ok

# getfield of another class
method 0x0009 f (Lp/X;)I
code 1 1
aload_0
getfield p/Y a I
ireturn
end
= p/X:p/Y

# getfield of null
method 0x0009 f ()I
code 1 0
aconst_null
getfield p/Y a I
ireturn
end
= ok

# getfield of an array
method 0x0009 f ([I)I
code 1 1
aload_0
getfield p/Y a I
ireturn
end
= ! 0 1

# putfield asks for its object first
method 0x0009 f (Lp/A;Lp/B;)V
code 2 2
aload_0
aload_1
putfield p/C a Lp/D;
return
end
= p/A:p/C p/B:p/D

# putfield of one item
method 0x0009 f (Lp/A;)V
code 1 1
aload_0
putfield p/A a Lp/A;
return
end
= ! 0 1

# getfield of a method
method 0x0009 f (Lp/X;)V
code 1 1
aload_0
invokevirtual p/X g ()V
return
end
@code 1 b4
= ! 0 1

# invokevirtual of a field
method 0x0009 f (Lp/X;)V
code 1 1
aload_0
getfield p/X a I
return
end
@code 1 b6
= ! 0 1

# a new object where another class is wanted
method 0x0009 f ()V
code 2 0
new p/X
dup
invokespecial p/X <init> ()V
invokestatic p/T g (Lp/Y;)V
return
end
= p/X:p/Y

# parameters from the deepest on
method 0x0009 f (Lp/A;Lp/B;)V
code 2 2
aload_0
aload_1
invokestatic p/X g (Lp/C;Lp/D;)V
return
end
= p/A:p/C p/B:p/D

# an object before the parameters
method 0x0009 f (Lp/A;Lp/B;)V
code 2 2
aload_0
aload_1
invokevirtual p/C g (Lp/D;)V
return
end
= p/A:p/C p/B:p/D

# the question before a wrong parameter stays
method 0x0009 f (Lp/A;)V
code 2 1
aload_0
iconst_0
invokestatic p/X g (Lp/C;Lp/D;)V
return
end
= p/A:p/C ! 0 2

# a parameter too few asks nothing
method 0x0009 f (Lp/A;)V
code 1 1
aload_0
invokestatic p/X g (Lp/C;Lp/D;)V
return
end
= ! 0 1

# a result without room comes behind the questions
method 0x0009 f (Lp/A;)V
code 1 1
aload_0
invokestatic p/X g (Lp/C;)J
return
end
= p/A:p/C ! 0 1

# parameters and results of each type
method 0x0009 f ()V
code 9 0
iconst_0
lconst_0
fconst_0
dconst_0
aconst_null
invokestatic p/X g (ZJFD[I)D
dstore 0
return
end
= ! 0 8

# a result of a double
method 0x0009 f ()D
code 9 0
iconst_0
lconst_0
fconst_0
dconst_0
aconst_null
invokestatic p/X g (ZJFD[I)D
dreturn
end
= ok

# invokeinterface
method 0x0009 f (Lp/X;J)I
code 3 3
aload_0
lload_1
invokeinterface p/I g (J)I
ireturn
end
= p/X:p/I

# invokeinterface with a wrong count
method 0x0009 f (Lp/X;)V
code 1 1
aload_0
invokeinterface p/I g ()V
return
end
@code 4 02
= ! 0 1

# invokeinterface with another byte behind the count
method 0x0009 f (Lp/X;)V
code 1 1
aload_0
invokeinterface p/I g ()V
return
end
@code 5 01
= ! 0 1

# a static method of an interface
method 0x0009 f ()V
code 0 0
invokestatic_i p/I g ()V
return
end
= ok

# a static method of an interface below version 52
class 0x0021 p/T java/lang/Object
version 51
method 0x0009 f ()V
code 0 0
invokestatic_i p/I g ()V
return
end
= ! 0 0

# invokevirtual of an interface's method
method 0x0009 f ()V
code 1 0
aconst_null
invokestatic_i p/I g ()V
return
end
@code 1 b6
= ! 0 1
"#;
