//! Members of superclasses, protected ones, and final classes and methods.

/// Cases, as `table` describes them.
pub(crate) const SUPERS: &str = r#"
# a method of the superclass
class 0x0021 p/T q/Base
method 0x0001 f ()V
code 1 1
aload_0
invokespecial q/Base o ()V
return
end
= ok

# a method above the superclass
class 0x0021 p/T q/Lifted
method 0x0001 f ()V
code 1 1
aload_0
invokespecial q/Base o ()V
return
end
= ok

# invokespecial on another object
class 0x0021 p/T q/Base
method 0x0009 f (Lp/X;)V
code 1 1
aload_0
invokespecial q/Base o ()V
return
end
= p/X:p/T

# invokespecial on an object of the superclass, whose method is protected
class 0x0021 p/T q/Base
method 0x0009 f (Lq/Base;)V
code 1 1
aload_0
invokespecial q/Base m ()V
return
end
= q/Base:p/T q/Base:p/T

# invokespecial of another class
class 0x0021 p/T q/Base
method 0x0001 f ()V
code 1 1
aload_0
invokespecial p/X o ()V
return
end
= ! 0 1

# a method of a direct superinterface
class 0x0021 p/T java/lang/Object p/I
method 0x0001 f ()V
code 1 1
aload_0
invokespecial_i p/I d ()V
return
end
= ok

# a method of another interface
class 0x0021 p/T java/lang/Object p/I
method 0x0001 f ()V
code 1 1
aload_0
invokespecial_i p/J d ()V
return
end
= ! 0 1

# a protected field of an object of the superclass
class 0x0021 p/T q/Base
method 0x0009 f (Lq/Base;)I
code 1 1
aload_0
getfield q/Base f I
ireturn
end
= q/Base:p/T

# a protected field of an object of the class
class 0x0021 p/T q/Base
method 0x0009 f (Lp/T;)I
code 1 1
aload_0
getfield q/Base f I
ireturn
end
= p/T:q/Base

# a protected field of an object of another class
class 0x0021 p/T q/Base
method 0x0009 f (Lq/U;)I
code 1 1
aload_0
getfield q/Base f I
ireturn
end
= q/U:q/Base q/U:p/T

# a protected field through a class between
class 0x0021 p/T q/Lifted
method 0x0009 f (Lq/Lifted;)I
code 1 1
aload_0
getfield q/Lifted f I
ireturn
end
= q/Lifted:p/T

# a protected field through the class itself
class 0x0021 p/T q/Base
method 0x0009 f (Lp/X;)I
code 1 1
aload_0
getfield p/T f I
ireturn
end
= p/X:p/T

# a protected field that is stored asks behind the value
class 0x0021 p/T q/Base
method 0x0009 f (Lq/Base;)V
code 2 1
aload_0
iconst_0
putfield q/Base f I
return
end
= q/Base:p/T

# a protected field within the package
class 0x0021 q/T q/Base
method 0x0009 f (Lq/Base;)I
code 1 1
aload_0
getfield q/Base f I
ireturn
end
= ok

# a public field
class 0x0021 p/T q/Base
method 0x0009 f (Lq/Base;)I
code 1 1
aload_0
getfield q/Base open I
ireturn
end
= ok

# a protected static field and method
class 0x0021 p/T q/Base
method 0x0009 f ()V
code 1 0
getstatic q/Base s I
pop
invokestatic q/Base n ()V
return
end
= ok

# a protected method of an object of the superclass
class 0x0021 p/T q/Base
method 0x0009 f (Lq/Base;)V
code 1 1
aload_0
invokevirtual q/Base m ()V
return
end
= q/Base:p/T

# a class that isn't a superclass
method 0x0009 f (Lq/Base;)V
code 1 1
aload_0
invokevirtual q/Base m ()V
return
end
= ok

# clone of an array
method 0x0009 f ([I)Ljava/lang/Object;
code 1 1
aload_0
invokevirtual java/lang/Object clone ()Ljava/lang/Object;
areturn
end
= ok

# clone of an array by its own class
method 0x0009 f ([I)Ljava/lang/Object;
code 1 1
aload_0
invokevirtual [I clone ()Ljava/lang/Object;
areturn
end
= ok

# clone of another object
method 0x0009 f (Lp/X;)Ljava/lang/Object;
code 1 1
aload_0
invokevirtual java/lang/Object clone ()Ljava/lang/Object;
areturn
end
= p/X:p/T

# a public method of Object on any object
method 0x0009 f (Lp/X;)I
code 1 1
aload_0
invokevirtual java/lang/Object hashCode ()I
ireturn
end
= ok

# a protected constructor on a new object
class 0x0021 p/T q/Base
method 0x0009 f ()V
code 2 0
new q/Base
iconst_0
invokespecial q/Base <init> (I)V
return
end
= ! 0 4

# a protected constructor on this
class 0x0021 p/T q/Base
method 0x0001 <init> ()V
code 2 1
aload_0
iconst_0
invokespecial q/Base <init> (I)V
return
end
= ok

# a final superclass
class 0x0021 p/T p/Final
method 0x0009 f (Lp/X;)Lp/Y;
code 1 1
aload_0
areturn
end
= ! 0 0

# a final method is overridden
class 0x0021 p/T q/Base
method 0x0009 f (Lp/X;)Lp/Y;
code 1 1
aload_0
areturn
end
method 0x0001 last ()V
code 0 1
return
end
= ! 0 0

# a final method of another descriptor isn't
class 0x0021 p/T q/Base
method 0x0001 last (I)V
code 0 2
return
end
= ok

# a final method of another package isn't overridden
class 0x0021 p/T q/Base
method 0x0001 inner ()V
code 0 1
return
end
= ok

# a final method of the package is overridden
class 0x0021 q/T q/Base
method 0x0001 inner ()V
code 0 1
return
end
= ! 0 0

# a private final method isn't overridden
class 0x0021 q/T q/Base
method 0x0001 own ()V
code 0 1
return
end
= ok

# a static final method isn't overridden
class 0x0021 q/T q/Base
method 0x0001 fixed ()V
code 0 1
return
end
= ok

# a final method that overrides one of another package
class 0x0021 p/T q/Lifted
method 0x0001 lift ()V
code 0 1
return
end
= ! 0 0

# a static method doesn't override
class 0x0021 p/T q/Base
method 0x0009 last ()V
code 0 0
return
end
= ok ~

# a final method is overridden through a class between
class 0x0021 p/T q/Chain
method 0x0001 inner ()V
code 0 1
return
end
= ! 0 0 ~

# a protected method whose result has no room
class 0x0021 p/T q/Base
method 0x0009 f (Lq/Base;)V
code 1 1
aload_0
invokevirtual q/Base w ()J
return
end
= q/Base:p/T ! 0 1

# a constructor that only a class above declares
class 0x0021 p/T q/Lifted
method 0x0009 f ()V
code 2 0
new q/Lifted
iconst_0
invokespecial q/Lifted <init> (I)V
return
end
= ok ~

# an interface that declares a final method of Object
class 0x0600 p/T java/lang/Object
method 0x0401 getClass ()Ljava/lang/Class;
= ! 0 0 ~
"#;
