//! `new`, constructors and uninitialized objects.

/// Cases, as `table` describes them.
pub(crate) const OBJECTS: &str = r#"
# a new object
method 0x0009 f ()Lp/X;
code 2 0
new p/X
dup
invokespecial p/X <init> ()V
areturn
end
= ok

# a new object with a constructor's parameters
method 0x0009 f (Lp/B;)Lp/X;
code 4 1
new p/X
dup
aload_0
iconst_1
invokespecial p/X <init> (Lp/A;I)V
areturn
end
= p/B:p/A

# a new object without its constructor
method 0x0009 f ()Ljava/lang/Object;
code 1 0
new p/X
areturn
end
= ! 0 3

# a new object whose field is read too early
method 0x0009 f ()I
code 1 0
new p/T
getfield p/T a I
ireturn
end
= ! 0 3

# a constructor of another class
method 0x0009 f ()V
code 1 0
new p/X
invokespecial p/Y <init> ()V
return
end
= ! 0 3

# a constructor called twice
method 0x0009 f ()V
code 2 0
new p/X
dup
invokespecial p/X <init> ()V
invokespecial p/X <init> ()V
return
end
= ! 0 7

# a constructor called on null
method 0x0009 f ()V
code 1 0
aconst_null
invokespecial p/X <init> ()V
return
end
= ! 0 1

# a constructor called on nothing
method 0x0009 f ()V
code 1 0
iconst_0
invokespecial p/X <init> (I)V
return
end
= ! 0 1

# all copies are finished
method 0x0009 f ()Lp/X;
code 2 1
new p/X
dup
astore_0
invokespecial p/X <init> ()V
aload_0
areturn
end
= ok

# copies of another object aren't
method 0x0009 f ()Lp/X;
code 3 0
new p/X
new p/X
dup
invokespecial p/X <init> ()V
pop
areturn
end
= ! 0 11

# a new while its object is on the stack
method 0x0009 f ()V
code 2 0
return
Again:
frame Again | @Again
new p/X
pop2
return
end
= ! 0 1 ~

# a new while its object is in a local
method 0x0009 f ()V
code 1 1
return
Again:
frame Again @Again |
new p/X
pop
aload_0
pop
return
end
= ! 0 5 ~

# an unfinished object over a branch
method 0x0009 f ()V
code 2 0
Made:
new p/X
iconst_0
ifeq There
nop
There:
frame There | @Made
invokespecial p/X <init> ()V
return
end
= ok

# an unfinished object for its class
method 0x0009 f ()V
code 2 0
new p/X
iconst_0
ifeq There
There:
frame There | O:p/X
pop
return
end
= ! 0 4

# an unfinished object of another place
method 0x0009 f ()V
code 3 0
new p/X
pop
Made:
new p/X
pop
new p/X
iconst_0
ifeq There
There:
frame There | @Made
pop
return
end
= ! 0 12

# an unfinished type whose place is no new
method 0x0009 f ()V
code 1 0
Made:
nop
return
There:
frame There | @Made
pop
return
end
= ! 0 0

# new of an array
method 0x0009 f ()V
code 1 0
new [I
pop
return
end
= ! 0 0

# new of what is no class
method 0x0009 f ()V
code 1 0
new p/X
pop
return
end
@code 1 00 01
= ! 0 0

# unfinished objects are compared
method 0x0009 f ()V
code 2 0
new p/X
dup
if_acmpeq There
There:
frame There |
return
end
= ok

# a constructor
method 0x0001 <init> ()V
code 1 1
aload_0
invokespecial java/lang/Object <init> ()V
return
end
= ok

# a constructor that returns before another is called
method 0x0001 <init> ()V
code 0 1
return
end
= ! 0 0

# a constructor that calls another of its class
method 0x0001 <init> ()V
code 2 1
aload_0
iconst_0
invokespecial p/T <init> (I)V
return
end
= ok

# a constructor that calls one above its superclass
class 0x0021 p/T q/Base
method 0x0001 <init> ()V
code 1 1
aload_0
invokespecial java/lang/Object <init> ()V
return
end
= ! 0 1

# a constructor that calls two
method 0x0001 <init> ()V
code 1 1
aload_0
invokespecial java/lang/Object <init> ()V
aload_0
invokespecial java/lang/Object <init> ()V
return
end
= ! 0 5

# a constructor that uses an unfinished object
method 0x0001 <init> ()V
code 1 1
aload_0
invokevirtual p/T f ()V
return
end
= ! 0 1

# a field of the class is set early
field 0x0002 a I
method 0x0001 <init> ()V
code 2 1
aload_0
iconst_0
putfield p/T a I
aload_0
invokespecial java/lang/Object <init> ()V
return
end
= ok

# a field of a superclass is set early
class 0x0021 p/T q/Base
method 0x0001 <init> ()V
code 2 1
aload_0
iconst_0
putfield q/Base f I
aload_0
invokespecial q/Base <init> ()V
return
end
= ! 0 2

# a field that the class doesn't declare is set early
class 0x0021 p/T q/Base
method 0x0001 <init> ()V
code 2 1
aload_0
iconst_0
putfield p/T f I
aload_0
invokespecial q/Base <init> ()V
return
end
= ! 0 2

# a field is read early
field 0x0002 a I
method 0x0001 <init> ()V
code 1 1
aload_0
getfield p/T a I
pop
return
end
= ! 0 1

# a branch in a constructor
method 0x0001 <init> ()V
code 1 1
iconst_0
ifeq There
There:
frame There U |
aload_0
invokespecial java/lang/Object <init> ()V
return
end
= ok

# a branch that forgets an unfinished object
method 0x0001 <init> ()V
code 1 1
iconst_0
ifeq There
There:
frame There |
return
end
= ! 0 1

# this in another local, when its first one is lost
method 0x0001 <init> ()V
code 1 2
aload_0
astore_1
aconst_null
astore_0
aload_1
invokespecial java/lang/Object <init> ()V
return
end
= ok

# Object calls no other constructor
class 0x0021 java/lang/Object -
method 0x0001 <init> ()V
code 0 1
return
end
= ok ~

# invokevirtual of a constructor
method 0x0009 f (Lp/X;)V
code 1 1
aload_0
invokevirtual p/X <init> ()V
return
end
= ! 0 1

# invokestatic of a constructor
method 0x0009 f ()V
code 0 0
invokestatic p/X <init> ()V
return
end
= ! 0 0

# a return of another method beside a frame with an unfinished this
method 0x0009 f ()V
code 0 1
return
There:
frame There U |
return
end
= ok ~

# this is unfinished in the locals of a frame or not at all
method 0x0001 <init> ()V
code 2 1
aload_0
aconst_null
astore_0
iconst_0
ifeq There
There:
frame There T | U
pop
return
end
= ! 0 4

# a frame at place 0 of a constructor
method 0x0001 <init> ()V
code 1 1
Begin:
frame Begin U |
aload_0
invokespecial java/lang/Object <init> ()V
return
end
= ok

# a frame at place 0 of a constructor that forgets this
method 0x0001 <init> ()V
code 0 1
Begin:
frame Begin |
return
end
= ! 0 0

# a long field of the class is set early
field 0x0002 a J
method 0x0001 <init> ()V
code 3 1
aload_0
lconst_1
putfield p/T a J
aload_0
invokespecial java/lang/Object <init> ()V
return
end
= ok

# an unfinished object as a value
method 0x0009 f (Lp/Y;)V
code 2 1
aload_0
new p/X
putfield p/Y a Ljava/lang/Object;
return
end
= ! 0 4

# athrow of an unfinished object
method 0x0009 f ()V
code 1 0
new p/X
athrow
end
= ! 0 3

# monitorenter and ifnull of an unfinished object
method 0x0009 f ()V
code 2 0
new p/X
dup
monitorenter
ifnull There
There:
frame There |
return
end
= ok ~

# instanceof of an unfinished object
method 0x0009 f ()V
code 1 0
new p/X
instanceof p/X
pop
return
end
= ! 0 3

# an unfinished object as a parameter
method 0x0009 f ()V
code 1 0
new p/X
invokestatic p/X g (Ljava/lang/Object;)V
return
end
= ! 0 3
"#;
