// Whole assemblies over a store and sinks in memory.

// The class files of A and of p/B have so many bytes behind each.
pub(crate) static ASSEMBLIES: &str = "\
new
text t.txt class 0x0021 A java/lang/Object~
run --asm t.txt out = 0||
size out/A.class = 53
size out/p/B.class = none
new
text t.txt class 0x0021 A java/lang/Object~class 0x0021 p/B java/lang/Object~
run --asm t.txt out = 0||
size out/A.class = 53
size out/p/B.class = 55
new
text t.txt class 0x0021 p/B java/lang/Object~class 0x0021 p/B java/lang/Object~
run --asm t.txt out = 0||
size out/A.class = none
size out/p/B.class = 55
new
text t.txt 
run --asm t.txt out = 0||
size out/A.class = none
size out/p/B.class = none
new
text t.txt # no class~
run --asm t.txt out = 0||
size out/A.class = none
size out/p/B.class = none
new
text t.txt class A
run --asm t.txt out = 7||line 1~
size out/A.class = none
size out/p/B.class = none
new
text t.txt class 0x0021 A java/lang/Object~class p/B~
run --asm t.txt out = 7||line 2~
size out/A.class = none
size out/p/B.class = none
new
text t.txt class 0x0021 A java/lang/Object~
fail 1 3
run --asm t.txt out = 11||read fault~
size out/A.class = none
size out/p/B.class = none
new
text t.txt class 0x0021 A java/lang/Object~
fail 2 3
run --asm t.txt out = 12||write fault~
size out/A.class = 3
size out/p/B.class = none
new
text t.txt class 0x0021 A java/lang/Object~class 0x0021 p/B java/lang/Object~
fail 3 3
run --asm t.txt out = 12||write fault~
size out/A.class = 53
size out/p/B.class = 3
new
text t.txt class 0x0021 A java/lang/Object~
run --asm t.txt out = 0||
reads = read t.txt
put A.class A
same out/A.class A.class = yes
new
run --asm no.txt out = 5||missing no.txt~
run --asm  out = 5||missing ~
run --asm no.txt  = 2||usage~";
