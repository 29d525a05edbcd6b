//! The exceptions that the machine throws.

macro_rules! exceptions {
    ([$next:ident $($more:ident)*] $($text:literal)*) => {
        $next!([$($more)*] $($text)* r#"
# A division by zero.
class 0x0021 java/lang/ArithmeticException java/lang/RuntimeException
version 52

# Makes one without a message.
method 0x0001 <init> ()V
code 1 1
aload_0
invokespecial java/lang/RuntimeException <init> ()V
return
end

# Makes one with a message.
method 0x0001 <init> (Ljava/lang/String;)V
code 2 2
aload_0
aload_1
invokespecial java/lang/RuntimeException <init> (Ljava/lang/String;)V
return
end

# An index is outside.
class 0x0021 java/lang/IndexOutOfBoundsException java/lang/RuntimeException
version 52

# Makes one without a message.
method 0x0001 <init> ()V
code 1 1
aload_0
invokespecial java/lang/RuntimeException <init> ()V
return
end

# Makes one with a message.
method 0x0001 <init> (Ljava/lang/String;)V
code 2 2
aload_0
aload_1
invokespecial java/lang/RuntimeException <init> (Ljava/lang/String;)V
return
end

# An index is outside an array.
class 0x0021 java/lang/ArrayIndexOutOfBoundsException java/lang/IndexOutOfBoundsException
version 52

# Makes one without a message.
method 0x0001 <init> ()V
code 1 1
aload_0
invokespecial java/lang/IndexOutOfBoundsException <init> ()V
return
end

# Makes one with a message.
method 0x0001 <init> (Ljava/lang/String;)V
code 2 2
aload_0
aload_1
invokespecial java/lang/IndexOutOfBoundsException <init> (Ljava/lang/String;)V
return
end

# An index is outside a string.
class 0x0021 java/lang/StringIndexOutOfBoundsException java/lang/IndexOutOfBoundsException
version 52

# Makes one without a message.
method 0x0001 <init> ()V
code 1 1
aload_0
invokespecial java/lang/IndexOutOfBoundsException <init> ()V
return
end

# Makes one with a message.
method 0x0001 <init> (Ljava/lang/String;)V
code 2 2
aload_0
aload_1
invokespecial java/lang/IndexOutOfBoundsException <init> (Ljava/lang/String;)V
return
end

# An array can't hold such an element.
class 0x0021 java/lang/ArrayStoreException java/lang/RuntimeException
version 52

# Makes one without a message.
method 0x0001 <init> ()V
code 1 1
aload_0
invokespecial java/lang/RuntimeException <init> ()V
return
end

# Makes one with a message.
method 0x0001 <init> (Ljava/lang/String;)V
code 2 2
aload_0
aload_1
invokespecial java/lang/RuntimeException <init> (Ljava/lang/String;)V
return
end

# An object isn't of the class that it was cast to.
class 0x0021 java/lang/ClassCastException java/lang/RuntimeException
version 52

# Makes one without a message.
method 0x0001 <init> ()V
code 1 1
aload_0
invokespecial java/lang/RuntimeException <init> ()V
return
end

# Makes one with a message.
method 0x0001 <init> (Ljava/lang/String;)V
code 2 2
aload_0
aload_1
invokespecial java/lang/RuntimeException <init> (Ljava/lang/String;)V
return
end

# An array was to have a negative length.
class 0x0021 java/lang/NegativeArraySizeException java/lang/RuntimeException
version 52

# Makes one without a message.
method 0x0001 <init> ()V
code 1 1
aload_0
invokespecial java/lang/RuntimeException <init> ()V
return
end

# Makes one with a message.
method 0x0001 <init> (Ljava/lang/String;)V
code 2 2
aload_0
aload_1
invokespecial java/lang/RuntimeException <init> (Ljava/lang/String;)V
return
end

# Null was used as an object.
class 0x0021 java/lang/NullPointerException java/lang/RuntimeException
version 52

# Makes one without a message.
method 0x0001 <init> ()V
code 1 1
aload_0
invokespecial java/lang/RuntimeException <init> ()V
return
end

# Makes one with a message.
method 0x0001 <init> (Ljava/lang/String;)V
code 2 2
aload_0
aload_1
invokespecial java/lang/RuntimeException <init> (Ljava/lang/String;)V
return
end

# A monitor was given back that wasn't entered.
class 0x0021 java/lang/IllegalMonitorStateException java/lang/RuntimeException
version 52

# Makes one without a message.
method 0x0001 <init> ()V
code 1 1
aload_0
invokespecial java/lang/RuntimeException <init> ()V
return
end

# Makes one with a message.
method 0x0001 <init> (Ljava/lang/String;)V
code 2 2
aload_0
aload_1
invokespecial java/lang/RuntimeException <init> (Ljava/lang/String;)V
return
end

# An object was to be copied whose class isn't Cloneable.
class 0x0021 java/lang/CloneNotSupportedException java/lang/Exception
version 52

# Makes one without a message.
method 0x0001 <init> ()V
code 1 1
aload_0
invokespecial java/lang/Exception <init> ()V
return
end

# Makes one with a message.
method 0x0001 <init> (Ljava/lang/String;)V
code 2 2
aload_0
aload_1
invokespecial java/lang/Exception <init> (Ljava/lang/String;)V
return
end
"#)
    };
}

pub(crate) use exceptions;
