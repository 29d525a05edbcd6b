//! Branches, switches, frames, tables and decoding.

/// Cases, as `table` describes them.
pub(crate) const FRAMES: &str = r#"
# a branch without a table
method 0x0009 f ()V
code 1 0
iconst_0
ifeq There
There:
return
end
= ! 0 1

# a branch with its frame
method 0x0009 f ()V
code 1 0
iconst_0
ifeq There
There:
frame There |
return
end
= ok

# a branch with other locals
method 0x0009 f (I)V
code 1 2
iconst_0
ifeq There
There:
frame There J |
return
end
= ! 0 1

# a branch that forgets a local
method 0x0009 f (I)I
code 1 1
iconst_0
ifeq There
There:
frame There |
iload_0
ireturn
end
= ! 0 4

# a branch with more on the stack than declared
method 0x0009 f ()V
code 2 0
iconst_0
iconst_0
ifeq There
There:
frame There |
return
end
= ! 0 2

# a branch with another item on the stack
method 0x0009 f ()V
code 2 0
iconst_0
iconst_0
ifeq There
There:
frame There | N
return
end
= ! 0 2

# a loop
method 0x0009 f ()V
code 0 0
Again:
frame Again |
goto Again
end
= ok

# a frame at place 0 that the parameters don't fit
method 0x0009 f (I)V
code 0 2
Begin:
frame Begin J |
return
end
= ! 0 0

# a frame at place 0 that asks
method 0x0009 f (Lp/X;)V
code 0 1
Begin:
frame Begin O:p/Y |
return
end
= p/X:p/Y

# a missing frame behind goto
method 0x0009 f ()V
code 0 0
goto There
nop
There:
frame There |
return
end
= ! 0 0

# a frame behind goto
method 0x0009 f ()V
code 0 0
goto There
Between:
frame Between |
nop
There:
frame There |
return
end
= ok

# a missing frame behind a return
method 0x0009 f ()V
code 0 0
return
return
end
= ! 0 0

# goto as the last instruction, and a frame that is fallen into
method 0x0009 f ()V
code 1 1
iconst_0
istore_0
Again:
frame Again I |
iinc 0 1
goto Again
end
= ok

# a frame that is fallen into with another type
method 0x0009 f ()V
code 1 1
iconst_0
istore_0
Again:
frame Again N |
goto Again
end
= ! 0 1

# goto_w
method 0x0009 f ()V
code 0 0
goto_w There
There:
frame There |
return
end
= ok

# a frame at the end of the code
method 0x0009 f ()V
code 0 0
return
There:
frame There |
end
= ! 0 0

# a frame inside an instruction
field 0x0008 StackMapTable I
method 0x0009 f ()V
code 1 0
bipush 0
pop
return
end
@map 00 01 01
= ! 0 0

# a table without frames
field 0x0008 StackMapTable I
method 0x0009 f ()V
code 0 0
return
end
@map 00 00
= ok

# a table that is cut short
field 0x0008 StackMapTable I
method 0x0009 f ()V
code 0 0
nop
return
end
@map 00 01
= ! 0 0

# a table with a byte too many
field 0x0008 StackMapTable I
method 0x0009 f ()V
code 0 0
nop
return
end
@map 00 01 01 00
= ! 0 0

# a frame of a kind that is none
field 0x0008 StackMapTable I
method 0x0009 f ()V
code 0 0
nop
return
end
@map 00 01 80
= ! 0 0

# the greatest kind that is none
field 0x0008 StackMapTable I
method 0x0009 f ()V
code 0 0
nop
return
end
@map 00 01 f6 00 01
= ! 0 0

# the kind above it
field 0x0008 StackMapTable I
method 0x0009 f ()V
code 1 0
iconst_0
nop
return
end
@map 00 01 f7 00 01 01
= ok

# a frame with more locals than there are
field 0x0008 StackMapTable I
method 0x0009 f (I)V
code 0 1
nop
return
end
@map 00 01 fc 00 01 01
= ! 0 0

# a frame with one local fewer
field 0x0008 StackMapTable I
method 0x0009 f (I)I
code 1 1
nop
iload_0
ireturn
end
@map 00 01 fa 00 01
= ! 0 1

# a frame with two locals fewer than one
field 0x0008 StackMapTable I
method 0x0009 f (I)V
code 0 1
nop
return
end
@map 00 01 f9 00 01
= ! 0 0

# a long more than there are locals
field 0x0008 StackMapTable I
method 0x0009 f ()V
code 2 1
nop
return
end
@map 00 01 fc 00 01 04
= ! 0 0

# a chop that takes a long as one
field 0x0008 StackMapTable I
method 0x0009 f (IJ)I
code 1 3
nop
iload_0
ireturn
end
@map 00 01 fa 00 01
= ok

# two frames, the second by the first
field 0x0008 StackMapTable I
method 0x0009 f (I)I
code 1 1
nop
nop
iload_0
ireturn
end
@map 00 02 01 00
= ok

# a type that is none
field 0x0008 StackMapTable I
method 0x0009 f ()V
code 0 1
nop
return
end
@map 00 01 fc 00 01 09
= ! 0 0

# an object type by an index that is no class
field 0x0008 StackMapTable I
method 0x0009 f ()V
code 0 1
nop
return
end
@map 00 01 fc 00 01 07 00 01
= ! 0 0

# a branch into an instruction
method 0x0009 f ()V
code 1 0
iconst_0
ifeq There
bipush 5
pop
There:
frame There |
return
end
@code 2 00 04
= ! 0 1

# a branch in front of the code
method 0x0009 f ()V
code 1 0
iconst_0
ifeq There
There:
frame There |
return
end
@code 2 ff f0
= ! 0 1

# a branch behind the code
method 0x0009 f ()V
code 1 0
iconst_0
ifeq There
There:
frame There |
return
end
@code 2 00 04
= ! 0 1

# if_icmp of an int alone
method 0x0009 f ()V
code 1 0
iconst_0
if_icmplt There
There:
frame There |
return
end
= ! 0 1

# if_acmp of ints
method 0x0009 f ()V
code 2 0
iconst_0
iconst_0
if_acmpeq There
There:
frame There |
return
end
= ! 0 2

# if_acmp and ifnull of references
method 0x0009 f (Lp/X;[I)V
code 2 2
aload_0
aload_1
if_acmpne There
aload_0
ifnonnull There
There:
frame There O:p/X O:[I |
return
end
= ok

# ifnull of an int
method 0x0009 f ()V
code 1 0
iconst_0
ifnull There
There:
frame There |
return
end
= ! 0 1

# the default of a tableswitch comes first
method 0x0009 f (Lp/A;I)V
code 1 2
iload_1
tableswitch 0 Other Zero
Zero:
frame Zero O:p/B I |
return
Other:
frame Other O:p/C I |
return
end
= p/A:p/C p/A:p/B

# the default of a lookupswitch comes first
method 0x0009 f (Lp/A;I)V
code 1 2
iload_1
lookupswitch Other 1 One 7 Seven
One:
frame One O:p/B I |
return
Seven:
frame Seven O:p/D I |
return
Other:
frame Other O:p/C I |
return
end
= p/A:p/C p/A:p/B p/A:p/D

# a tableswitch over a long
method 0x0009 f (J)V
code 2 2
lload_0
tableswitch 0 Other Other
Other:
frame Other J |
return
end
= ! 0 1

# a tableswitch with a bad range
method 0x0009 f (I)V
code 1 1
iload_0
tableswitch 0 Other Other
Other:
return
end
@code 8 00 00 00 01
= ! 0 1

# a tableswitch that passes the end
method 0x0009 f (I)V
code 1 1
iload_0
tableswitch 0 Other Other
Other:
return
end
@code 12 00 00 00 07
= ! 0 1

# a lookupswitch whose keys don't ascend
method 0x0009 f (I)V
code 1 1
iload_0
lookupswitch Other 1 Other 2 Other
Other:
return
end
@code 12 00 00 00 02
= ! 0 1

# a missing frame behind a switch
method 0x0009 f (I)V
code 1 1
iload_0
tableswitch 0 Other Other
nop
Other:
frame Other I |
return
end
= ! 0 1

# a target of a switch without a frame
method 0x0009 f (I)V
code 1 1
iload_0
tableswitch 0 Other Zero
Other:
frame Other I |
nop
Zero:
return
end
= ! 0 1

# jsr
method 0x0009 f ()V
code 1 0
jsr There
There:
frame There |
return
end
= ! 0 0

# jsr_w
method 0x0009 f ()V
code 1 0
jsr_w There
There:
frame There |
return
end
= ! 0 0

# ret
method 0x0009 f ()V
code 1 1
ret 0
end
= ! 0 0

# wide ret
method 0x0009 f ()V
code 1 300
ret 299
end
= ! 0 0

# an opcode that is none
method 0x0009 f ()V
code 0 0
nop
return
end
@code 0 ca
= ! 0 0

# wide in front of another instruction
method 0x0009 f ()V
code 0 0
nop
nop
return
end
@code 0 c4 60
= ! 0 0

# an instruction that is cut
method 0x0009 f ()V
code 1 0
nop
nop
end
@code 1 11
= ! 0 1

# an opcode that is none behind a goto
method 0x0009 f ()V
code 0 0
Again:
frame Again |
goto Again
nop
end
@code 3 ca
= ! 0 0

# a chop behind a written top
field 0x0008 StackMapTable I
method 0x0009 f (I)I
code 1 3
nop
nop
iload_0
ireturn
end
@map 00 02 fd 00 01 00 00 f9 00 00
= ok

# an append behind a written top
field 0x0008 StackMapTable I
method 0x0009 f ()I
code 1 2
iconst_0
istore_1
iload_1
ireturn
end
@map 00 01 fd 00 02 00 01
= ok

# a switch at each padding
method 0x0009 f (I)V
code 1 1
iload_0
nop
tableswitch 0 One One
One:
frame One I |
iload_0
nop
nop
lookupswitch Two 1 Two
Two:
frame Two I |
iload_0
tableswitch 0 Three Three
Three:
frame Three I |
iload_0
nop
nop
nop
nop
lookupswitch Four
Four:
frame Four I |
return
end
= ok

# the default of a switch in front of it
method 0x0009 f (Lp/A;I)V
code 1 2
Back:
frame Back O:p/A I |
iload_1
tableswitch 5 Back On
On:
frame On O:p/B I |
return
end
= p/A:p/B
"#;
