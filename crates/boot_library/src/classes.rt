//! Class and Throwable.

macro_rules! classes {
    ([$next:ident $($more:ident)*] $($text:literal)*) => {
        $next!([$($more)*] $($text)* r#"
# A loaded class or an array class. The machine makes the object, once for each.
class 0x0031 java/lang/Class java/lang/Object
version 52

# The name with a dot between its segments.
method 0x0101 getName ()Ljava/lang/String;

# Whether it is an array class.
method 0x0101 isArray ()Z

# Whether it is an interface.
method 0x0101 isInterface ()Z

# The direct superclass: null for Object and for an interface.
method 0x0101 getSuperclass ()Ljava/lang/Class;

# Assertions are never checked.
method 0x0001 desiredAssertionStatus ()Z
code 1 1
iconst_0
ireturn
end

# What it is, and its name.
method 0x0001 toString ()Ljava/lang/String;
code 2 1
aload_0
invokevirtual java/lang/Class isInterface ()Z
ifeq Class
ldc "interface "
aload_0
invokevirtual java/lang/Class getName ()Ljava/lang/String;
invokevirtual java/lang/String concat (Ljava/lang/String;)Ljava/lang/String;
areturn
Class:
frame Class O:java/lang/Class |
ldc "class "
aload_0
invokevirtual java/lang/Class getName ()Ljava/lang/String;
invokevirtual java/lang/String concat (Ljava/lang/String;)Ljava/lang/String;
areturn
end

# What can be thrown. One that the machine makes has neither message nor cause, but for the cause of an
# ExceptionInInitializerError.
class 0x0021 java/lang/Throwable java/lang/Object java/io/Serializable
version 52

field 0x0002 detailMessage Ljava/lang/String;
field 0x0002 cause Ljava/lang/Throwable;

# Makes one without a message and without a cause.
method 0x0001 <init> ()V
code 1 1
aload_0
invokespecial java/lang/Object <init> ()V
aload_0
invokevirtual java/lang/Throwable fillInStackTrace ()Ljava/lang/Throwable;
pop
return
end

# Makes one with a message.
method 0x0001 <init> (Ljava/lang/String;)V
code 2 2
aload_0
invokespecial java/lang/Object <init> ()V
aload_0
invokevirtual java/lang/Throwable fillInStackTrace ()Ljava/lang/Throwable;
pop
aload_0
aload_1
putfield java/lang/Throwable detailMessage Ljava/lang/String;
return
end

# Makes one with a message and a cause.
method 0x0001 <init> (Ljava/lang/String;Ljava/lang/Throwable;)V
code 2 3
aload_0
invokespecial java/lang/Object <init> ()V
aload_0
invokevirtual java/lang/Throwable fillInStackTrace ()Ljava/lang/Throwable;
pop
aload_0
aload_1
putfield java/lang/Throwable detailMessage Ljava/lang/String;
aload_0
aload_2
putfield java/lang/Throwable cause Ljava/lang/Throwable;
return
end

# The message, or null.
method 0x0001 getMessage ()Ljava/lang/String;
code 1 1
aload_0
getfield java/lang/Throwable detailMessage Ljava/lang/String;
areturn
end

# The cause, or null.
method 0x0001 getCause ()Ljava/lang/Throwable;
code 1 1
aload_0
getfield java/lang/Throwable cause Ljava/lang/Throwable;
areturn
end

# The name of the class, and the message where there is one.
method 0x0001 toString ()Ljava/lang/String;
code 2 3
aload_0
invokevirtual java/lang/Object getClass ()Ljava/lang/Class;
invokevirtual java/lang/Class getName ()Ljava/lang/String;
astore_1
aload_0
invokevirtual java/lang/Throwable getMessage ()Ljava/lang/String;
astore_2
aload_2
ifnonnull Told
aload_1
areturn
Told:
frame Told O:java/lang/Throwable O:java/lang/String O:java/lang/String |
aload_1
ldc ": "
invokevirtual java/lang/String concat (Ljava/lang/String;)Ljava/lang/String;
aload_2
invokevirtual java/lang/String concat (Ljava/lang/String;)Ljava/lang/String;
areturn
end

# This one: no stack is kept.
method 0x0101 fillInStackTrace ()Ljava/lang/Throwable;
"#)
    };
}

pub(crate) use classes;
