//! Object and the interfaces.

macro_rules! objects {
    ([$next:ident $($more:ident)*] $($text:literal)*) => {
        $next!([$($more)*] $($text)* r#"
# The root of all classes: what every object and every array can do.
class 0x0021 java/lang/Object -
version 52

# An object has nothing to set.
method 0x0001 <init> ()V
code 0 1
return
end

# Whether the other one is this very object.
method 0x0001 equals (Ljava/lang/Object;)Z
code 2 2
aload_0
aload_1
if_acmpne Another
iconst_1
ireturn
Another:
frame Another O:java/lang/Object O:java/lang/Object |
iconst_0
ireturn
end

# The name of the class, an at sign, and the hash code in hexadecimal.
method 0x0001 toString ()Ljava/lang/String;
code 2 1
aload_0
invokevirtual java/lang/Object getClass ()Ljava/lang/Class;
invokevirtual java/lang/Class getName ()Ljava/lang/String;
ldc "@"
invokevirtual java/lang/String concat (Ljava/lang/String;)Ljava/lang/String;
aload_0
invokevirtual java/lang/Object hashCode ()I
invokestatic java/lang/Integer toHexString (I)Ljava/lang/String;
invokevirtual java/lang/String concat (Ljava/lang/String;)Ljava/lang/String;
areturn
end

# The class of the object.
method 0x0111 getClass ()Ljava/lang/Class;

# The number of the object.
method 0x0101 hashCode ()I

# A copy of an array, or of an object whose class is Cloneable.
method 0x0104 clone ()Ljava/lang/Object;

# Says that objects of a class may be written to a stream.
class 0x0601 java/io/Serializable java/lang/Object
version 52

# Says that objects of a class may be copied by Object.clone.
class 0x0601 java/lang/Cloneable java/lang/Object
version 52

# An order of the objects of a class.
class 0x0601 java/lang/Comparable java/lang/Object
version 52

# Below 0, 0 or above 0, as this one is before, level with or behind the other.
method 0x0401 compareTo (Ljava/lang/Object;)I

# Something that can be read as units of UTF-16.
class 0x0601 java/lang/CharSequence java/lang/Object
version 52

# The number of units.
method 0x0401 length ()I

# The unit at an index.
method 0x0401 charAt (I)C

# The units as a string.
method 0x0401 toString ()Ljava/lang/String;
"#)
    };
}

pub(crate) use objects;
