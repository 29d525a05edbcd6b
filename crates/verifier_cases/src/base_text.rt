//! The classes that the cases are based on.

/// Their text. The superclasses of a case are among them.
pub(crate) const BASES: &str = r#"
class 0x0021 java/lang/Object -
method 0x0001 <init> ()V
code 0 1
return
end
method 0x0104 clone ()Ljava/lang/Object;
method 0x0101 hashCode ()I
method 0x0111 getClass ()Ljava/lang/Class;

class 0x0021 q/Base java/lang/Object
field 0x0004 f I
field 0x000c s I
field 0x0001 open I
method 0x0001 <init> ()V
code 1 1
aload_0
invokespecial java/lang/Object <init> ()V
return
end
method 0x0004 <init> (I)V
code 1 2
aload_0
invokespecial java/lang/Object <init> ()V
return
end
method 0x0004 m ()V
code 0 1
return
end
method 0x000c n ()V
code 0 0
return
end
method 0x0004 w ()J
code 2 1
lconst_0
lreturn
end
method 0x0001 o ()V
code 0 1
return
end
method 0x0011 last ()V
code 0 1
return
end
method 0x0010 inner ()V
code 0 1
return
end
method 0x0000 lift ()V
code 0 1
return
end
method 0x0012 own ()V
code 0 1
return
end
method 0x0019 fixed ()V
code 0 0
return
end

class 0x0021 q/Lifted q/Base
method 0x0001 <init> ()V
code 1 1
aload_0
invokespecial q/Base <init> ()V
return
end
method 0x0011 lift ()V
code 0 1
return
end

class 0x0021 q/Chain q/Base
method 0x0001 <init> ()V
code 1 1
aload_0
invokespecial q/Base <init> ()V
return
end
method 0x0001 inner ()V
code 0 1
return
end

class 0x0031 p/Final java/lang/Object
method 0x0001 <init> ()V
code 1 1
aload_0
invokespecial java/lang/Object <init> ()V
return
end

# what the cases name beside these
class 0x0021 p/Y java/lang/Object
class 0x0021 p/X p/Y
class 0x0021 p/C java/lang/Object
class 0x0021 p/A p/C
class 0x0021 p/D java/lang/Object
class 0x0021 p/B p/D
class 0x0021 p/U java/lang/Object
class 0x0021 p/V java/lang/Object
class 0x0021 p/W java/lang/Object
class 0x0021 p/Z java/lang/Object
class 0x0021 q/U q/Base
class 0x0601 p/I java/lang/Object
class 0x0601 p/J java/lang/Object
"#;
