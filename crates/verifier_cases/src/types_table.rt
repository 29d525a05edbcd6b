//! Which types are assignable to which.

/// Cases, as `table` describes them.
pub(crate) const TYPES: &str = r#"
# a class for another
method 0x0009 f (Lp/X;)Lp/Y;
code 1 1
aload_0
areturn
end
= p/X:p/Y

# a class for Object
method 0x0009 f (Lp/X;)Ljava/lang/Object;
code 1 1
aload_0
areturn
end
= ok

# Object for a class
method 0x0009 f (Ljava/lang/Object;)Lp/Y;
code 1 1
aload_0
areturn
end
= java/lang/Object:p/Y

# an array for Object
method 0x0009 f ([I)Ljava/lang/Object;
code 1 1
aload_0
areturn
end
= ok

# an array for Serializable
method 0x0009 f ([Lp/X;)Ljava/io/Serializable;
code 1 1
aload_0
areturn
end
= ok

# an array for another class
method 0x0009 f ([I)Ljava/lang/String;
code 1 1
aload_0
areturn
end
= ! 0 1

# a class for an array
method 0x0009 f (Ljava/lang/Object;)[I
code 1 1
aload_0
areturn
end
= ! 0 1

# an array of a class for one of another
method 0x0009 f ([Lp/X;)[Lp/Y;
code 1 1
aload_0
areturn
end
= p/X:p/Y

# arrays of arrays of classes
method 0x0009 f ([[Lp/X;)[[Lp/Y;
code 1 1
aload_0
areturn
end
= p/X:p/Y

# an array of ints for one of longs
method 0x0009 f ([I)[J
code 1 1
aload_0
areturn
end
= ! 0 1

# an array of arrays for one of objects
method 0x0009 f ([[I)[Ljava/lang/Object;
code 1 1
aload_0
areturn
end
= ok

# an array of ints for one of objects
method 0x0009 f ([I)[Ljava/lang/Object;
code 1 1
aload_0
areturn
end
= ! 0 1

# an array of arrays for one of Cloneables
method 0x0009 f ([[I)[Ljava/lang/Cloneable;
code 1 1
aload_0
areturn
end
= ok

# an array of classes for one of arrays
method 0x0009 f ([Ljava/lang/Object;)[[I
code 1 1
aload_0
areturn
end
= ! 0 1

# a lower class for an array of references
method 0x0009 f ([[Lp/X;)[Ljava/io/Serializable;
code 1 1
aload_0
areturn
end
= ok
"#;
