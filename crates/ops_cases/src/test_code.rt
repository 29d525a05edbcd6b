// A code that holds each instruction with operands at their edges, and switches at each place modulo four, their padding
// once zeros and once ones; and what `javap -c` of Java 17 prints of a class with that code. Distances stand in place of
// the targets that it prints, numbers in place of the types of newarray, and the last byte of invokeinterface and of
// invokedynamic, which it leaves out, is added.

/// The code: its bytes in hexadecimal digits.
pub static CODE: &str =
    "00 01 02 03 04 05 06 07 08 09 0a 0b 0c 0d 0e 0f 10 80 10 ff 10 00 10 7f 11 80 00 11 ff ff 11 01
02 11 7f ff 12 01 12 ff 13 00 01 13 01 02 13 ff ff 14 00 01 14 01 02 14 ff ff 15 00 15 ff 16 00
16 ff 17 00 17 ff 18 00 18 ff 19 00 19 ff 1a 1b 1c 1d 1e 1f 20 21 22 23 24 25 26 27 28 29 2a 2b
2c 2d 2e 2f 30 31 32 33 34 35 36 00 36 ff 37 00 37 ff 38 00 38 ff 39 00 39 ff 3a 00 3a ff 3b 3c
3d 3e 3f 40 41 42 43 44 45 46 47 48 49 4a 4b 4c 4d 4e 4f 50 51 52 53 54 55 56 57 58 59 5a 5b 5c
5d 5e 5f 60 61 62 63 64 65 66 67 68 69 6a 6b 6c 6d 6e 6f 70 71 72 73 74 75 76 77 78 79 7a 7b 7c
7d 7e 7f 80 81 82 83 84 00 80 84 ff 7f 84 03 ff 85 86 87 88 89 8a 8b 8c 8d 8e 8f 90 91 92 93 94
95 96 97 98 99 80 00 99 ff ff 99 01 02 99 7f ff 9a 80 00 9a ff ff 9a 01 02 9a 7f ff 9b 80 00 9b
ff ff 9b 01 02 9b 7f ff 9c 80 00 9c ff ff 9c 01 02 9c 7f ff 9d 80 00 9d ff ff 9d 01 02 9d 7f ff
9e 80 00 9e ff ff 9e 01 02 9e 7f ff 9f 80 00 9f ff ff 9f 01 02 9f 7f ff a0 80 00 a0 ff ff a0 01
02 a0 7f ff a1 80 00 a1 ff ff a1 01 02 a1 7f ff a2 80 00 a2 ff ff a2 01 02 a2 7f ff a3 80 00 a3
ff ff a3 01 02 a3 7f ff a4 80 00 a4 ff ff a4 01 02 a4 7f ff a5 80 00 a5 ff ff a5 01 02 a5 7f ff
a6 80 00 a6 ff ff a6 01 02 a6 7f ff a7 80 00 a7 ff ff a7 01 02 a7 7f ff a8 80 00 a8 ff ff a8 01
02 a8 7f ff a9 00 a9 ff aa 00 00 00 80 00 00 00 00 00 00 00 00 00 00 00 ff ff ff ff 00 00 00 aa
7f ff ff ff ff ff ff ff 00 00 00 01 ff ff ff ff 7f ff ff ff 80 00 00 00 00 00 aa 00 ff ff ff ff
80 00 00 00 80 00 00 01 ff ff ff ff 7f ff ff ff 00 aa 00 00 01 02 03 04 7f ff ff fe 7f ff ff ff
ff ff ff ff 7f ff ff ff aa ff ff ff 80 00 00 00 00 00 00 00 00 00 00 00 ff ff ff ff 00 00 00 aa
7f ff ff ff ff ff ff ff 00 00 00 01 ff ff ff ff 7f ff ff ff 80 00 00 00 00 00 aa ff ff ff ff ff
80 00 00 00 80 00 00 01 ff ff ff ff 7f ff ff ff 00 aa ff ff 01 02 03 04 7f ff ff fe 7f ff ff ff
ff ff ff ff 7f ff ff ff ab 00 00 00 80 00 00 00 00 00 00 00 00 00 00 ab 7f ff ff ff 00 00 00 01
ff ff ff ff ff ff ff ff 00 00 ab 00 ff ff ff ff 00 00 00 02 80 00 00 00 ff ff ff ff 7f ff ff ff
7f ff ff ff 00 ab 00 00 01 02 03 04 00 00 00 04 ff ff ff fe ff ff ff ff ff ff ff ff 7f ff ff ff
00 00 00 00 80 00 00 00 01 02 03 04 01 02 03 04 ab ff ff ff 80 00 00 00 00 00 00 00 00 00 00 ab
7f ff ff ff 00 00 00 01 ff ff ff ff ff ff ff ff 00 00 ab ff ff ff ff ff 00 00 00 02 80 00 00 00
ff ff ff ff 7f ff ff ff 7f ff ff ff 00 ab ff ff 01 02 03 04 00 00 00 04 ff ff ff fe ff ff ff ff
ff ff ff ff 7f ff ff ff 00 00 00 00 80 00 00 00 01 02 03 04 01 02 03 04 ac ad ae af b0 b1 b2 00
01 b2 01 02 b2 ff ff b3 00 01 b3 01 02 b3 ff ff b4 00 01 b4 01 02 b4 ff ff b5 00 01 b5 01 02 b5
ff ff b6 00 01 b6 01 02 b6 ff ff b7 00 01 b7 01 02 b7 ff ff b8 00 01 b8 01 02 b8 ff ff b9 00 01
01 00 b9 ff ff ff 00 b9 01 02 03 ff ba 00 01 00 00 ba 01 02 03 ff bb 00 01 bb 01 02 bb ff ff bc
04 bc 05 bc 06 bc 07 bc 08 bc 09 bc 0a bc 0b bd 00 01 bd 01 02 bd ff ff be bf c0 00 01 c0 01 02
c0 ff ff c1 00 01 c1 01 02 c1 ff ff c2 c3 c4 15 00 00 c4 15 01 02 c4 15 ff ff c4 16 00 00 c4 16
01 02 c4 16 ff ff c4 17 00 00 c4 17 01 02 c4 17 ff ff c4 18 00 00 c4 18 01 02 c4 18 ff ff c4 19
00 00 c4 19 01 02 c4 19 ff ff c4 36 00 00 c4 36 01 02 c4 36 ff ff c4 37 00 00 c4 37 01 02 c4 37
ff ff c4 38 00 00 c4 38 01 02 c4 38 ff ff c4 39 00 00 c4 39 01 02 c4 39 ff ff c4 3a 00 00 c4 3a
01 02 c4 3a ff ff c4 a9 00 00 c4 a9 01 02 c4 a9 ff ff c4 84 00 00 80 00 c4 84 ff ff 7f ff c4 84
01 02 ff ff c5 00 01 01 c5 ff ff ff c5 01 02 00 c6 80 00 c6 ff ff c6 01 02 c6 7f ff c7 80 00 c7
ff ff c7 01 02 c7 7f ff c8 80 00 00 00 c8 ff ff ff ff c8 01 02 03 04 c8 7f ff ff ff c9 80 00 00
00 c9 ff ff ff ff c9 01 02 03 04 c9 7f ff ff ff
";

/// Its instructions: the place, the mnemonic, then the operands in their order.
pub static LISTING: &str = "0 nop
1 aconst_null
2 iconst_m1
3 iconst_0
4 iconst_1
5 iconst_2
6 iconst_3
7 iconst_4
8 iconst_5
9 lconst_0
10 lconst_1
11 fconst_0
12 fconst_1
13 fconst_2
14 dconst_0
15 dconst_1
16 bipush -128
18 bipush -1
20 bipush 0
22 bipush 127
24 sipush -32768
27 sipush -1
30 sipush 258
33 sipush 32767
36 ldc 1
38 ldc 255
40 ldc_w 1
43 ldc_w 258
46 ldc_w 65535
49 ldc2_w 1
52 ldc2_w 258
55 ldc2_w 65535
58 iload 0
60 iload 255
62 lload 0
64 lload 255
66 fload 0
68 fload 255
70 dload 0
72 dload 255
74 aload 0
76 aload 255
78 iload_0
79 iload_1
80 iload_2
81 iload_3
82 lload_0
83 lload_1
84 lload_2
85 lload_3
86 fload_0
87 fload_1
88 fload_2
89 fload_3
90 dload_0
91 dload_1
92 dload_2
93 dload_3
94 aload_0
95 aload_1
96 aload_2
97 aload_3
98 iaload
99 laload
100 faload
101 daload
102 aaload
103 baload
104 caload
105 saload
106 istore 0
108 istore 255
110 lstore 0
112 lstore 255
114 fstore 0
116 fstore 255
118 dstore 0
120 dstore 255
122 astore 0
124 astore 255
126 istore_0
127 istore_1
128 istore_2
129 istore_3
130 lstore_0
131 lstore_1
132 lstore_2
133 lstore_3
134 fstore_0
135 fstore_1
136 fstore_2
137 fstore_3
138 dstore_0
139 dstore_1
140 dstore_2
141 dstore_3
142 astore_0
143 astore_1
144 astore_2
145 astore_3
146 iastore
147 lastore
148 fastore
149 dastore
150 aastore
151 bastore
152 castore
153 sastore
154 pop
155 pop2
156 dup
157 dup_x1
158 dup_x2
159 dup2
160 dup2_x1
161 dup2_x2
162 swap
163 iadd
164 ladd
165 fadd
166 dadd
167 isub
168 lsub
169 fsub
170 dsub
171 imul
172 lmul
173 fmul
174 dmul
175 idiv
176 ldiv
177 fdiv
178 ddiv
179 irem
180 lrem
181 frem
182 drem
183 ineg
184 lneg
185 fneg
186 dneg
187 ishl
188 lshl
189 ishr
190 lshr
191 iushr
192 lushr
193 iand
194 land
195 ior
196 lor
197 ixor
198 lxor
199 iinc 0 -128
202 iinc 255 127
205 iinc 3 -1
208 i2l
209 i2f
210 i2d
211 l2i
212 l2f
213 l2d
214 f2i
215 f2l
216 f2d
217 d2i
218 d2l
219 d2f
220 i2b
221 i2c
222 i2s
223 lcmp
224 fcmpl
225 fcmpg
226 dcmpl
227 dcmpg
228 ifeq -32768
231 ifeq -1
234 ifeq 258
237 ifeq 32767
240 ifne -32768
243 ifne -1
246 ifne 258
249 ifne 32767
252 iflt -32768
255 iflt -1
258 iflt 258
261 iflt 32767
264 ifge -32768
267 ifge -1
270 ifge 258
273 ifge 32767
276 ifgt -32768
279 ifgt -1
282 ifgt 258
285 ifgt 32767
288 ifle -32768
291 ifle -1
294 ifle 258
297 ifle 32767
300 if_icmpeq -32768
303 if_icmpeq -1
306 if_icmpeq 258
309 if_icmpeq 32767
312 if_icmpne -32768
315 if_icmpne -1
318 if_icmpne 258
321 if_icmpne 32767
324 if_icmplt -32768
327 if_icmplt -1
330 if_icmplt 258
333 if_icmplt 32767
336 if_icmpge -32768
339 if_icmpge -1
342 if_icmpge 258
345 if_icmpge 32767
348 if_icmpgt -32768
351 if_icmpgt -1
354 if_icmpgt 258
357 if_icmpgt 32767
360 if_icmple -32768
363 if_icmple -1
366 if_icmple 258
369 if_icmple 32767
372 if_acmpeq -32768
375 if_acmpeq -1
378 if_acmpeq 258
381 if_acmpeq 32767
384 if_acmpne -32768
387 if_acmpne -1
390 if_acmpne 258
393 if_acmpne 32767
396 goto -32768
399 goto -1
402 goto 258
405 goto 32767
408 jsr -32768
411 jsr -1
414 jsr 258
417 jsr 32767
420 ret 0
422 ret 255
424 tableswitch -2147483648 0 0 -1
444 nop
445 nop
446 nop
447 tableswitch 2147483647 -1 1 -1 2147483647 -2147483648
472 nop
473 nop
474 tableswitch -1 -2147483648 -2147483647 -1 2147483647
496 nop
497 tableswitch 16909060 2147483646 2147483647 -1 2147483647
520 tableswitch -2147483648 0 0 -1
540 nop
541 nop
542 nop
543 tableswitch 2147483647 -1 1 -1 2147483647 -2147483648
568 nop
569 nop
570 tableswitch -1 -2147483648 -2147483647 -1 2147483647
592 nop
593 tableswitch 16909060 2147483646 2147483647 -1 2147483647
616 lookupswitch -2147483648
628 nop
629 nop
630 nop
631 lookupswitch 2147483647 -1 -1
648 nop
649 nop
650 lookupswitch -1 -2147483648 -1 2147483647 2147483647
676 nop
677 lookupswitch 16909060 -2 -1 -1 2147483647 0 -2147483648 16909060 16909060
720 lookupswitch -2147483648
732 nop
733 nop
734 nop
735 lookupswitch 2147483647 -1 -1
752 nop
753 nop
754 lookupswitch -1 -2147483648 -1 2147483647 2147483647
780 nop
781 lookupswitch 16909060 -2 -1 -1 2147483647 0 -2147483648 16909060 16909060
824 ireturn
825 lreturn
826 freturn
827 dreturn
828 areturn
829 return
830 getstatic 1
833 getstatic 258
836 getstatic 65535
839 putstatic 1
842 putstatic 258
845 putstatic 65535
848 getfield 1
851 getfield 258
854 getfield 65535
857 putfield 1
860 putfield 258
863 putfield 65535
866 invokevirtual 1
869 invokevirtual 258
872 invokevirtual 65535
875 invokespecial 1
878 invokespecial 258
881 invokespecial 65535
884 invokestatic 1
887 invokestatic 258
890 invokestatic 65535
893 invokeinterface 1 1 0
898 invokeinterface 65535 255 0
903 invokeinterface 258 3 255
908 invokedynamic 1 0 0
913 invokedynamic 258 3 255
918 new 1
921 new 258
924 new 65535
927 newarray 4
929 newarray 5
931 newarray 6
933 newarray 7
935 newarray 8
937 newarray 9
939 newarray 10
941 newarray 11
943 anewarray 1
946 anewarray 258
949 anewarray 65535
952 arraylength
953 athrow
954 checkcast 1
957 checkcast 258
960 checkcast 65535
963 instanceof 1
966 instanceof 258
969 instanceof 65535
972 monitorenter
973 monitorexit
974 iload_w 0
978 iload_w 258
982 iload_w 65535
986 lload_w 0
990 lload_w 258
994 lload_w 65535
998 fload_w 0
1002 fload_w 258
1006 fload_w 65535
1010 dload_w 0
1014 dload_w 258
1018 dload_w 65535
1022 aload_w 0
1026 aload_w 258
1030 aload_w 65535
1034 istore_w 0
1038 istore_w 258
1042 istore_w 65535
1046 lstore_w 0
1050 lstore_w 258
1054 lstore_w 65535
1058 fstore_w 0
1062 fstore_w 258
1066 fstore_w 65535
1070 dstore_w 0
1074 dstore_w 258
1078 dstore_w 65535
1082 astore_w 0
1086 astore_w 258
1090 astore_w 65535
1094 ret_w 0
1098 ret_w 258
1102 ret_w 65535
1106 iinc_w 0 -32768
1112 iinc_w 65535 32767
1118 iinc_w 258 -1
1124 multianewarray 1 1
1128 multianewarray 65535 255
1132 multianewarray 258 0
1136 ifnull -32768
1139 ifnull -1
1142 ifnull 258
1145 ifnull 32767
1148 ifnonnull -32768
1151 ifnonnull -1
1154 ifnonnull 258
1157 ifnonnull 32767
1160 goto_w -2147483648
1165 goto_w -1
1170 goto_w 16909060
1175 goto_w 2147483647
1180 jsr_w -2147483648
1185 jsr_w -1
1190 jsr_w 16909060
1195 jsr_w 2147483647
";
