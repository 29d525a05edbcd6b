//! Exception handlers.

/// Cases, as `table` describes them.
pub(crate) const HANDLERS: &str = r#"
# a store under a handler
method 0x0009 f ()V
code 2 1
new p/X
dup
invokespecial p/X <init> ()V
Begin:
astore_0
End:
return
Handler:
frame Handler | O:p/T
pop
return
catch Begin End Handler p/T
end
= p/T:java/lang/Throwable

# a handler for everything
method 0x0009 f ()V
code 1 0
Begin:
nop
End:
return
Handler:
frame Handler | O:p/T
pop
return
catch Begin End Handler any
end
= java/lang/Throwable:p/T

# a handler for everything that gets a Throwable
method 0x0009 f ()V
code 1 0
Begin:
nop
End:
return
Handler:
frame Handler | O:java/lang/Throwable
athrow
catch Begin End Handler any
end
= ok

# a handler whose frame has two items
method 0x0009 f ()V
code 2 0
nop
Begin:
nop
End:
return
Handler:
frame Handler | O:java/lang/Throwable I
pop2
return
catch Begin End Handler any
end
= ! 0 1

# a handler whose frame has an int
method 0x0009 f ()V
code 1 0
Begin:
nop
End:
return
Handler:
frame Handler | I
pop
return
catch Begin End Handler any
end
= ! 0 0

# a handler sees the locals before an instruction
method 0x0009 f (I)V
code 1 1
fconst_0
Begin:
fstore_0
End:
return
Handler:
frame Handler I | O:java/lang/Throwable
pop
return
catch Begin End Handler any
end
= ok

# a handler doesn't see the local that the instruction sets
method 0x0009 f ()V
code 1 1
iconst_0
Begin:
istore_0
End:
return
Handler:
frame Handler I | O:java/lang/Throwable
pop
return
catch Begin End Handler any
end
= ! 0 1

# a handler is tested at each instruction of its range
method 0x0009 f (I)V
code 1 1
Begin:
fconst_0
fstore_0
nop
End:
return
Handler:
frame Handler I | O:java/lang/Throwable
pop
return
catch Begin End Handler any
end
= ! 0 2

# two handlers, in the order of the table
method 0x0009 f ()V
code 1 0
Begin:
nop
End:
return
One:
frame One | O:p/B
pop
return
Two:
frame Two | O:p/D
pop
return
catch Begin End Two p/C
catch Begin End One p/A
end
= p/C:java/lang/Throwable p/A:java/lang/Throwable p/C:p/D p/A:p/B

# the locals of a handler come before its item
method 0x0009 f (Lp/X;)V
code 1 1
Begin:
nop
End:
return
Handler:
frame Handler O:p/Y | O:p/U
pop
return
catch Begin End Handler p/T
end
= p/T:java/lang/Throwable p/X:p/Y p/T:p/U

# operands, handlers and the instruction behind, in this order
field 0x0008 a Lp/Y;
method 0x0009 f (Lp/X;)V
code 1 1
aload_0
Begin:
putstatic p/T a Lp/Y;
End:
frame End O:p/Z |
return
Handler:
frame Handler O:p/W | O:java/lang/Throwable
pop
return
catch Begin End Handler any
end
= p/X:p/Y p/X:p/W p/X:p/Z

# targets come before handlers, and these before the instruction behind
method 0x0009 f (Lp/X;)V
code 1 1
iconst_0
Begin:
ifeq There
End:
frame End O:p/Z |
return
There:
frame There O:p/V |
return
Handler:
frame Handler O:p/W | O:java/lang/Throwable
pop
return
catch Begin End Handler any
end
= p/X:p/V p/X:p/W p/X:p/Z

# an instruction is asked for once a handler
method 0x0009 f (Lp/X;)V
code 1 1
Begin:
nop
nop
End:
return
Handler:
frame Handler O:p/W | O:java/lang/Throwable
pop
return
catch Begin End Handler any
end
= p/X:p/W p/X:p/W

# a handler whose range begins inside an instruction
method 0x0009 f ()V
code 1 0
bipush 0
pop
return
Handler:
frame Handler | O:java/lang/Throwable
pop
return
end
@handler 1 3 4 0
= ! 0 0

# a handler whose range ends inside an instruction
method 0x0009 f ()V
code 1 0
bipush 0
pop
return
Handler:
frame Handler | O:java/lang/Throwable
pop
return
end
@handler 0 1 4 0
= ! 0 0

# a handler whose range ends with the code
method 0x0009 f ()V
code 1 0
bipush 0
pop
return
Handler:
frame Handler | O:java/lang/Throwable
pop
return
end
@handler 3 4 4 0
@handler 4 6 4 0
= ok

# a handler inside an instruction
method 0x0009 f ()V
code 1 0
bipush 0
pop
return
end
@handler 0 2 1 0
= ! 0 0

# a handler without a frame
method 0x0009 f ()V
code 1 0
nop
return
pop
return
end
@handler 0 1 2 0
= ! 0 0

# a handler that catches an array
method 0x0009 f ()V
code 1 0
Begin:
nop
End:
return
Handler:
frame Handler | O:java/lang/Throwable
pop
return
catch Begin End Handler p/T
catch Begin End Handler [I
end
= p/T:java/lang/Throwable ! 0 0

# a handler that catches what is no class
method 0x0009 f ()V
code 1 0
nop
return
Handler:
frame Handler | O:java/lang/Throwable
pop
return
end
@handler 0 1 2 1
= ! 0 0

# a handler in a constructor, before and behind the call
method 0x0001 <init> ()V
code 1 1
Begin:
aload_0
Call:
invokespecial java/lang/Object <init> ()V
End:
return
Early:
frame Early U | O:java/lang/Throwable
athrow
Late:
frame Late O:p/T | O:java/lang/Throwable
pop
return
catch Begin End Early any
catch End Early Late any
end
= ok ~

# a handler in a constructor that forgets the unfinished this
method 0x0001 <init> ()V
code 1 1
Begin:
aload_0
invokespecial java/lang/Object <init> ()V
End:
return
Handler:
frame Handler | O:java/lang/Throwable
athrow
catch Begin End Handler any
end
= ! 0 0

# a handler in a constructor is tested with the frame before the call
method 0x0001 <init> ()V
code 1 1
aload_0
Call:
invokespecial java/lang/Object <init> ()V
End:
return
Handler:
frame Handler O:p/T | O:java/lang/Throwable
athrow
catch Call End Handler any
end
= ! 0 1
"#;
