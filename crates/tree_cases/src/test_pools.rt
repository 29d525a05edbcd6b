// Constant pools for the tests. A line says whether the bytes are a pool and what it shows, and behind a semicolon gives
// the count and then the bytes: `utf8:` is an entry of a text, whose parts stand between bars, a part `N*T` being T so
// many times, and a number is a byte.

/// Pools on both sides of each rule.
pub static POOLS: &str = "yes index 0 alone; 1
yes an empty text; 2 1 0 0
yes two equal texts; 3 utf8:a utf8:a
yes an Integer and a Float; 3 3 255 255 255 255 4 127 192 0 1
yes a Long; 3 5 0 0 0 1 0 0 0 2
yes a Double, and an entry behind it; 4 6 0 0 0 1 0 0 0 2 utf8:a
yes a class; 3 utf8:p/q/K 7 0 1
yes a class before its name; 3 7 0 2 utf8:K
yes a class that is named as a base type; 3 utf8:I 7 0 1
yes an array of a base type; 3 utf8:[I 7 0 1
yes an array of arrays of a class; 3 utf8:[[Lp/K; 7 0 1
yes an array of 255 dimensions; 3 utf8:255*[|I 7 0 1
yes a string of any text; 3 utf8:a.b 8 0 1
yes a method type of any text; 3 utf8:a.b 16 0 1
yes a name and type of any texts; 4 utf8:a.b utf8: 12 0 1 0 2
yes a field; 7 utf8:K 7 0 1 utf8:f utf8:[J 12 0 3 0 4 9 0 2 0 5
yes a field with brackets in its name; 7 utf8:K 7 0 1 utf8:<f> utf8:I 12 0 3 0 4 9 0 2 0 5
yes a method; 7 utf8:K 7 0 1 utf8:m utf8:(IJ)V 12 0 3 0 4 10 0 2 0 5
yes a method of an interface; 7 utf8:K 7 0 1 utf8:m utf8:()[[Lp/K; 12 0 3 0 4 11 0 2 0 5
yes a constructor; 7 utf8:K 7 0 1 utf8:<init> utf8:(I)V 12 0 3 0 4 10 0 2 0 5
yes a method of an interface that is named as a constructor; 7 utf8:K 7 0 1 utf8:<init> utf8:()I 12 0 3 0 4 11 0 2 0 5
yes a method of 255 slots; 7 utf8:K 7 0 1 utf8:m utf8:(|255*I|)V 12 0 3 0 4 10 0 2 0 5
yes a handle of kind 1; 8 utf8:K 7 0 1 utf8:f utf8:I 12 0 3 0 4 9 0 2 0 5 15 1 0 6
yes a handle of kind 9; 8 utf8:K 7 0 1 utf8:m utf8:()V 12 0 3 0 4 11 0 2 0 5 15 9 0 6
yes a handle of kind 1 and a method; 8 utf8:K 7 0 1 utf8:m utf8:()V 12 0 3 0 4 10 0 2 0 5 15 1 0 6
yes a call of any name, type and bootstrap method; 5 utf8:a.b utf8:a 12 0 1 0 2 18 255 255 0 3
yes a single surrogate; 2 1 0 3 237 160 128
yes U+0000 in two bytes; 2 1 0 2 192 128
yes texts of two and three bytes; 2 1 0 5 194 128 224 160 128
no a count of 0; 0
no a count that is too great; 3 utf8:a
no a text that is too long; 2 1 0 2 97
no tag 0; 2 0 0 0 0 0
no tag 2; 2 2 0 0 0 0
no tag 13; 2 13 0 0 0 0
no tag 14; 2 14 0 0 0 0
no tag 17; 2 17 0 0 0 0
no tag 19; 2 19 0 0 0 0
no tag 20; 2 20 0 0 0 0
no tag 255; 2 255 0 0 0 0
no a Long at the last index; 2 5 0 0 0 0 0 0 0 0
no a Double at the last index; 3 utf8:a 6 0 0 0 0 0 0 0 0
no a Long of four bytes; 3 5 0 0 0 0
no the byte 0; 2 1 0 1 0
no the byte F0; 2 1 0 4 240 159 152 128
no a lone second byte; 2 1 0 1 128
no U+0001 in two bytes; 2 1 0 2 192 129
no U+007F in two bytes; 2 1 0 2 193 191
no U+07FF in three bytes; 2 1 0 3 224 159 191
no a cut form of two bytes; 2 1 0 1 194
no a cut form of three bytes; 2 1 0 2 225 128
no a third byte that is none; 2 1 0 3 225 128 65
no a class of index 0; 2 7 0 0
no a class of an index past the end; 2 7 0 2
no a class of itself; 2 7 0 1
no a name and type whose type is a class; 4 utf8:a 7 0 1 12 0 1 0 2
no a method of an interface whose second part is a class; 4 utf8:K 7 0 1 11 0 2 0 2
no a class of the second index of a Long; 4 5 0 0 0 0 0 0 0 0 7 0 2
no a class of a Long; 4 5 0 0 0 0 0 0 0 0 7 0 1
no a class of no name; 3 utf8: 7 0 1
no a class of an empty segment; 3 utf8:p//K 7 0 1
no a class of a slash at the end; 3 utf8:p/ 7 0 1
no a class with a dot; 3 utf8:p.K 7 0 1
no a class with a semicolon; 3 utf8:LK; 7 0 1
no a class with a bracket behind; 3 utf8:K[ 7 0 1
no an array of nothing; 3 utf8:[ 7 0 1
no an array of V; 3 utf8:[V 7 0 1
no an array of a class without a semicolon; 3 utf8:[LK 7 0 1
no an array of 256 dimensions; 3 utf8:256*[|I 7 0 1
no a string of index 0; 2 8 0 0
no a string of an Integer; 3 3 0 0 0 0 8 0 1
no a method type of a class; 4 utf8:K 7 0 1 16 0 2
no a name and type without a name; 3 utf8:a 12 0 0 0 1
no a name and type without a type; 3 utf8:a 12 0 1 0 0
no a name and type of a class; 4 utf8:K 7 0 1 12 0 2 0 1
no a field of a text; 7 utf8:K 7 0 1 utf8:f utf8:I 12 0 3 0 4 9 0 1 0 5
no a field without a class; 7 utf8:K 7 0 1 utf8:f utf8:I 12 0 3 0 4 9 0 0 0 5
no a field without a name and type; 7 utf8:K 7 0 1 utf8:f utf8:I 12 0 3 0 4 9 0 2 0 0
no a field of a name alone; 7 utf8:K 7 0 1 utf8:f utf8:I 12 0 3 0 4 9 0 2 0 3
no a method of a text; 7 utf8:K 7 0 1 utf8:m utf8:()V 12 0 3 0 4 10 0 1 0 5
no a method of a name alone; 7 utf8:K 7 0 1 utf8:m utf8:()V 12 0 3 0 4 10 0 2 0 3
no a method of an interface of a text; 7 utf8:K 7 0 1 utf8:m utf8:()V 12 0 3 0 4 11 0 1 0 5
no a field without a name; 7 utf8:K 7 0 1 utf8: utf8:I 12 0 3 0 4 9 0 2 0 5
no a field with a slash; 7 utf8:K 7 0 1 utf8:a/b utf8:I 12 0 3 0 4 9 0 2 0 5
no a field with a bracket; 7 utf8:K 7 0 1 utf8:a[ utf8:I 12 0 3 0 4 9 0 2 0 5
no a field of a method's type; 7 utf8:K 7 0 1 utf8:f utf8:()I 12 0 3 0 4 9 0 2 0 5
no a field of V; 7 utf8:K 7 0 1 utf8:f utf8:V 12 0 3 0 4 9 0 2 0 5
no a method of a field's type; 7 utf8:K 7 0 1 utf8:m utf8:I 12 0 3 0 4 10 0 2 0 5
no a method with a dot; 7 utf8:K 7 0 1 utf8:a.b utf8:()V 12 0 3 0 4 10 0 2 0 5
no a method with an angle bracket; 7 utf8:K 7 0 1 utf8:a< utf8:()V 12 0 3 0 4 10 0 2 0 5
no a class initialiser; 7 utf8:K 7 0 1 utf8:<clinit> utf8:()V 12 0 3 0 4 10 0 2 0 5
no a class initialiser of an interface; 7 utf8:K 7 0 1 utf8:<clinit> utf8:()V 12 0 3 0 4 11 0 2 0 5
no a constructor that returns I; 7 utf8:K 7 0 1 utf8:<init> utf8:()I 12 0 3 0 4 10 0 2 0 5
no a constructor of no method's type; 7 utf8:K 7 0 1 utf8:<init> utf8:V 12 0 3 0 4 10 0 2 0 5
no a method of an interface of a field's type; 7 utf8:K 7 0 1 utf8:m utf8:I 12 0 3 0 4 11 0 2 0 5
no a method of 256 slots; 7 utf8:K 7 0 1 utf8:m utf8:(|256*I|)V 12 0 3 0 4 10 0 2 0 5
no a handle of kind 0; 8 utf8:K 7 0 1 utf8:f utf8:I 12 0 3 0 4 9 0 2 0 5 15 0 0 6
no a handle of kind 10; 8 utf8:K 7 0 1 utf8:f utf8:I 12 0 3 0 4 9 0 2 0 5 15 10 0 6
no a handle of a class; 4 utf8:K 7 0 1 15 1 0 2
no a handle of a name and type; 4 utf8:a 12 0 1 0 1 15 1 0 2
no a handle of index 0; 2 15 1 0 0
no a call of a text; 3 utf8:a 18 0 0 0 1
no a call of a method; 8 utf8:K 7 0 1 utf8:m utf8:()V 12 0 3 0 4 10 0 2 0 5 18 0 0 0 6
no a call of index 0; 2 18 0 0 0 0";
