//! The errors.

macro_rules! errors {
    ([$next:ident $($more:ident)*] $($text:literal)*) => {
        $next!([$($more)*] $($text)* r#"
# Something that a program isn't expected to catch.
class 0x0021 java/lang/Error java/lang/Throwable
version 52

# Makes one without a message.
method 0x0001 <init> ()V
code 1 1
aload_0
invokespecial java/lang/Throwable <init> ()V
return
end

# Makes one with a message.
method 0x0001 <init> (Ljava/lang/String;)V
code 2 2
aload_0
aload_1
invokespecial java/lang/Throwable <init> (Ljava/lang/String;)V
return
end

# Something that a program may want to catch.
class 0x0021 java/lang/Exception java/lang/Throwable
version 52

# Makes one without a message.
method 0x0001 <init> ()V
code 1 1
aload_0
invokespecial java/lang/Throwable <init> ()V
return
end

# Makes one with a message.
method 0x0001 <init> (Ljava/lang/String;)V
code 2 2
aload_0
aload_1
invokespecial java/lang/Throwable <init> (Ljava/lang/String;)V
return
end

# An exception that no method has to declare.
class 0x0021 java/lang/RuntimeException java/lang/Exception
version 52

# Makes one without a message.
method 0x0001 <init> ()V
code 1 1
aload_0
invokespecial java/lang/Exception <init> ()V
return
end

# Makes one with a message.
method 0x0001 <init> (Ljava/lang/String;)V
code 2 2
aload_0
aload_1
invokespecial java/lang/Exception <init> (Ljava/lang/String;)V
return
end

# A class can't be used as another one asks for it.
class 0x0021 java/lang/LinkageError java/lang/Error
version 52

# Makes one without a message.
method 0x0001 <init> ()V
code 1 1
aload_0
invokespecial java/lang/Error <init> ()V
return
end

# Makes one with a message.
method 0x0001 <init> (Ljava/lang/String;)V
code 2 2
aload_0
aload_1
invokespecial java/lang/Error <init> (Ljava/lang/String;)V
return
end

# A class that is needed isn't there, or is in error.
class 0x0021 java/lang/NoClassDefFoundError java/lang/LinkageError
version 52

# Makes one without a message.
method 0x0001 <init> ()V
code 1 1
aload_0
invokespecial java/lang/LinkageError <init> ()V
return
end

# Makes one with a message.
method 0x0001 <init> (Ljava/lang/String;)V
code 2 2
aload_0
aload_1
invokespecial java/lang/LinkageError <init> (Ljava/lang/String;)V
return
end

# A file of a class isn't in the class file format.
class 0x0021 java/lang/ClassFormatError java/lang/LinkageError
version 52

# Makes one without a message.
method 0x0001 <init> ()V
code 1 1
aload_0
invokespecial java/lang/LinkageError <init> ()V
return
end

# Makes one with a message.
method 0x0001 <init> (Ljava/lang/String;)V
code 2 2
aload_0
aload_1
invokespecial java/lang/LinkageError <init> (Ljava/lang/String;)V
return
end

# A class file has a version that isn't run.
class 0x0021 java/lang/UnsupportedClassVersionError java/lang/ClassFormatError
version 52

# Makes one without a message.
method 0x0001 <init> ()V
code 1 1
aload_0
invokespecial java/lang/ClassFormatError <init> ()V
return
end

# Makes one with a message.
method 0x0001 <init> (Ljava/lang/String;)V
code 2 2
aload_0
aload_1
invokespecial java/lang/ClassFormatError <init> (Ljava/lang/String;)V
return
end

# A class is its own superclass or superinterface, in some steps.
class 0x0021 java/lang/ClassCircularityError java/lang/LinkageError
version 52

# Makes one without a message.
method 0x0001 <init> ()V
code 1 1
aload_0
invokespecial java/lang/LinkageError <init> ()V
return
end

# Makes one with a message.
method 0x0001 <init> (Ljava/lang/String;)V
code 2 2
aload_0
aload_1
invokespecial java/lang/LinkageError <init> (Ljava/lang/String;)V
return
end

# A class isn't what another was compiled against.
class 0x0021 java/lang/IncompatibleClassChangeError java/lang/LinkageError
version 52

# Makes one without a message.
method 0x0001 <init> ()V
code 1 1
aload_0
invokespecial java/lang/LinkageError <init> ()V
return
end

# Makes one with a message.
method 0x0001 <init> (Ljava/lang/String;)V
code 2 2
aload_0
aload_1
invokespecial java/lang/LinkageError <init> (Ljava/lang/String;)V
return
end

# A method that is called has no code.
class 0x0021 java/lang/AbstractMethodError java/lang/IncompatibleClassChangeError
version 52

# Makes one without a message.
method 0x0001 <init> ()V
code 1 1
aload_0
invokespecial java/lang/IncompatibleClassChangeError <init> ()V
return
end

# Makes one with a message.
method 0x0001 <init> (Ljava/lang/String;)V
code 2 2
aload_0
aload_1
invokespecial java/lang/IncompatibleClassChangeError <init> (Ljava/lang/String;)V
return
end

# A class or a member isn't accessible.
class 0x0021 java/lang/IllegalAccessError java/lang/IncompatibleClassChangeError
version 52

# Makes one without a message.
method 0x0001 <init> ()V
code 1 1
aload_0
invokespecial java/lang/IncompatibleClassChangeError <init> ()V
return
end

# Makes one with a message.
method 0x0001 <init> (Ljava/lang/String;)V
code 2 2
aload_0
aload_1
invokespecial java/lang/IncompatibleClassChangeError <init> (Ljava/lang/String;)V
return
end

# An abstract class or an interface was to be made an object of.
class 0x0021 java/lang/InstantiationError java/lang/IncompatibleClassChangeError
version 52

# Makes one without a message.
method 0x0001 <init> ()V
code 1 1
aload_0
invokespecial java/lang/IncompatibleClassChangeError <init> ()V
return
end

# Makes one with a message.
method 0x0001 <init> (Ljava/lang/String;)V
code 2 2
aload_0
aload_1
invokespecial java/lang/IncompatibleClassChangeError <init> (Ljava/lang/String;)V
return
end

# A class has no such field.
class 0x0021 java/lang/NoSuchFieldError java/lang/IncompatibleClassChangeError
version 52

# Makes one without a message.
method 0x0001 <init> ()V
code 1 1
aload_0
invokespecial java/lang/IncompatibleClassChangeError <init> ()V
return
end

# Makes one with a message.
method 0x0001 <init> (Ljava/lang/String;)V
code 2 2
aload_0
aload_1
invokespecial java/lang/IncompatibleClassChangeError <init> (Ljava/lang/String;)V
return
end

# A class has no such method.
class 0x0021 java/lang/NoSuchMethodError java/lang/IncompatibleClassChangeError
version 52

# Makes one without a message.
method 0x0001 <init> ()V
code 1 1
aload_0
invokespecial java/lang/IncompatibleClassChangeError <init> ()V
return
end

# Makes one with a message.
method 0x0001 <init> (Ljava/lang/String;)V
code 2 2
aload_0
aload_1
invokespecial java/lang/IncompatibleClassChangeError <init> (Ljava/lang/String;)V
return
end

# A native method that is called isn't there.
class 0x0021 java/lang/UnsatisfiedLinkError java/lang/LinkageError
version 52

# Makes one without a message.
method 0x0001 <init> ()V
code 1 1
aload_0
invokespecial java/lang/LinkageError <init> ()V
return
end

# Makes one with a message.
method 0x0001 <init> (Ljava/lang/String;)V
code 2 2
aload_0
aload_1
invokespecial java/lang/LinkageError <init> (Ljava/lang/String;)V
return
end

# A class doesn't pass verification.
class 0x0021 java/lang/VerifyError java/lang/LinkageError
version 52

# Makes one without a message.
method 0x0001 <init> ()V
code 1 1
aload_0
invokespecial java/lang/LinkageError <init> ()V
return
end

# Makes one with a message.
method 0x0001 <init> (Ljava/lang/String;)V
code 2 2
aload_0
aload_1
invokespecial java/lang/LinkageError <init> (Ljava/lang/String;)V
return
end

# An exception ended the initialisation of a class. It is the cause.
class 0x0021 java/lang/ExceptionInInitializerError java/lang/LinkageError
version 52

# Makes one without a message.
method 0x0001 <init> ()V
code 1 1
aload_0
invokespecial java/lang/LinkageError <init> ()V
return
end

# Makes one with a message.
method 0x0001 <init> (Ljava/lang/String;)V
code 2 2
aload_0
aload_1
invokespecial java/lang/LinkageError <init> (Ljava/lang/String;)V
return
end

# The machine can't go on.
class 0x0421 java/lang/VirtualMachineError java/lang/Error
version 52

# Makes one without a message.
method 0x0001 <init> ()V
code 1 1
aload_0
invokespecial java/lang/Error <init> ()V
return
end

# Makes one with a message.
method 0x0001 <init> (Ljava/lang/String;)V
code 2 2
aload_0
aload_1
invokespecial java/lang/Error <init> (Ljava/lang/String;)V
return
end

# The heap has no room left.
class 0x0021 java/lang/OutOfMemoryError java/lang/VirtualMachineError
version 52

# Makes one without a message.
method 0x0001 <init> ()V
code 1 1
aload_0
invokespecial java/lang/VirtualMachineError <init> ()V
return
end

# Makes one with a message.
method 0x0001 <init> (Ljava/lang/String;)V
code 2 2
aload_0
aload_1
invokespecial java/lang/VirtualMachineError <init> (Ljava/lang/String;)V
return
end

# Calls are nested too deep.
class 0x0021 java/lang/StackOverflowError java/lang/VirtualMachineError
version 52

# Makes one without a message.
method 0x0001 <init> ()V
code 1 1
aload_0
invokespecial java/lang/VirtualMachineError <init> ()V
return
end

# Makes one with a message.
method 0x0001 <init> (Ljava/lang/String;)V
code 2 2
aload_0
aload_1
invokespecial java/lang/VirtualMachineError <init> (Ljava/lang/String;)V
return
end
"#)
    };
}

pub(crate) use errors;
