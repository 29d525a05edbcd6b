// The words of the commands, and what they ask for.

// A folder and a main class, and the path of its file; class paths of 64 folders and more; and no words.
pub(crate) static FOLDERS: &str = "\
words |-XX:SharedArchiveFile=a|-cp|app|Main = run app/Main.class auto a 1000000000
words |-XX:SharedArchiveFile=a|-cp|a b/c|x.y_1.Z$ = run a b/c/x/y_1/Z$.class auto a 1000000000
words |-XX:SharedArchiveFile=a|-cp|**|A = run **/A.class auto a 1000000000
words |-XX:SharedArchiveFile=a|-cp|jar|9 = run jar/9.class auto a 1000000000
words |-XX:SharedArchiveFile=a|-cp|a.jar/|A = run a.jar//A.class auto a 1000000000
words |-XX:SharedArchiveFile=a|-cp|a.JAR|A = run a.JAR/A.class auto a 1000000000
words |-XX:SharedArchiveFile=a|-cp||A = nothing
words |-XX:SharedArchiveFile=a|-cp|*|A = nothing
words |-XX:SharedArchiveFile=a|-cp|a:b|A = nothing
words |-XX:SharedArchiveFile=a|-cp|a.jar|A = nothing
words |-XX:SharedArchiveFile=a|-cp|.zip|A = nothing
words |-XX:SharedArchiveFile=a|-cp|app| = nothing
words |-XX:SharedArchiveFile=a|-cp|app|.A = nothing
words |-XX:SharedArchiveFile=a|-cp|app|A. = nothing
words |-XX:SharedArchiveFile=a|-cp|app|a..B = nothing
words |-XX:SharedArchiveFile=a|-cp|app|a/B = nothing
words |-XX:SharedArchiveFile=a|-cp|app|a-B = nothing
words |-XX:SharedArchiveFile=a|-cp|app|\u{e9} = nothing
words |-cp|d|Main = home Main jsa-home [d,] - 1000000000
words |-cp|d:d:d:d:d:d:d:d:d:d:d:d:d:d:d:d:d:d:d:d:d:d:d:d:d:d:d:d:d:d:d:d:d:d:d:d:d:d:d:d:d:d:d:d:d:d:d:d:d:d:d:d:d:d:d:d:d:d:d:d:d:d:d|Main = home Main jsa-home [d,d,d,d,d,d,d,d,d,d,d,d,d,d,d,d,d,d,d,d,d,d,d,d,d,d,d,d,d,d,d,d,d,d,d,d,d,d,d,d,d,d,d,d,d,d,d,d,d,d,d,d,d,d,d,d,d,d,d,d,d,d,d,] - 1000000000
words |-cp|d:d:d:d:d:d:d:d:d:d:d:d:d:d:d:d:d:d:d:d:d:d:d:d:d:d:d:d:d:d:d:d:d:d:d:d:d:d:d:d:d:d:d:d:d:d:d:d:d:d:d:d:d:d:d:d:d:d:d:d:d:d:d:d|Main = home Main jsa-home [d,d,d,d,d,d,d,d,d,d,d,d,d,d,d,d,d,d,d,d,d,d,d,d,d,d,d,d,d,d,d,d,d,d,d,d,d,d,d,d,d,d,d,d,d,d,d,d,d,d,d,d,d,d,d,d,d,d,d,d,d,d,d,d,] - 1000000000
words |-cp|d:d:d:d:d:d:d:d:d:d:d:d:d:d:d:d:d:d:d:d:d:d:d:d:d:d:d:d:d:d:d:d:d:d:d:d:d:d:d:d:d:d:d:d:d:d:d:d:d:d:d:d:d:d:d:d:d:d:d:d:d:d:d:d:d|Main = nothing
words |-cp|d:d:d:d:d:d:d:d:d:d:d:d:d:d:d:d:d:d:d:d:d:d:d:d:d:d:d:d:d:d:d:d:d:d:d:d:d:d:d:d:d:d:d:d:d:d:d:d:d:d:d:d:d:d:d:d:d:d:d:d:d:d:d:d:d:d|Main = nothing
words = nothing";

pub(crate) static WORDS: &str = "\
words |-cp|app|Main = home Main jsa-home [app,] - 1000000000
words |-cp|app|--steps=7|Main = home Main jsa-home [app,] - 7
words |--steps=0x10|-cp|app|Main = home Main jsa-home [app,] - 16
words |-cp|app|--steps=7|-Xshare:auto|Main = home Main jsa-home [app,] - 7
words |--steps=0x10|-Xshare:auto|-cp|app|Main = home Main jsa-home [app,] - 16
words |-Xshare:auto|-cp|app|Main = home Main jsa-home [app,] - 1000000000
words |-Xshare:on|-cp|app|Main = home Main jsa-home [app,] - 1000000000
words |-cp|app|-Xshare:on|Main = home Main jsa-home [app,] - 1000000000
words |-XX:SharedArchiveFile=a.jsa|-cp|app|p.Main = run app/p/Main.class auto a.jsa 1000000000
words |-cp|app|-XX:SharedArchiveFile=a.jsa|Main = run app/Main.class auto a.jsa 1000000000
words |--steps=1|-XX:SharedArchiveFile=a|-Xshare:on|-cp|b|C = run b/C.class on a 1
words |-Xshare:on|-cp|b|--steps=1|-XX:SharedArchiveFile=a|C = run b/C.class on a 1
words |-cp|app|--steps=7|-XX:SharedArchiveFile=a|Main = run app/Main.class auto a 7
words |--steps=0x10|-Xshare:auto|-XX:SharedArchiveFile=a|-cp|app|Main = run app/Main.class auto a 16
words |-Xshare:auto|-XX:SharedArchiveFile=a|Main = nothing
words |-XX:SharedArchiveFile=a|-cp|app|-cp|app|Main = nothing
words |-XX:SharedArchiveFile=a|--steps=1|--steps=1|-cp|app|Main = nothing
words |-Xshare:auto|-Xshare:auto|-XX:SharedArchiveFile=a|-cp|app|Main = nothing
words |-Xshare:auto|-Xshare:on|-XX:SharedArchiveFile=a|-cp|app|Main = nothing
words |-Xshare:off|-XX:SharedArchiveFile=a|-cp|app|Main = home Main jsa-home [app,] - 1000000000
words |-XX:SharedArchiveFile=a|-Xshare:off|-cp|app|Main = home Main jsa-home [app,] - 1000000000
words |-Xshare:off|-XX:SharedArchiveFile=a|--home=h|-cp|a:b|-XX:DumpLoadedClassList=l|--steps=3|Main = home Main h [a,b,] l 3
words |-XX:SharedArchiveFile=a|-XX:SharedArchiveFile=b|-Xshare:off|Main = home Main jsa-home [.,] - 1000000000
words |-XX:SharedArchiveFile=a|-Xshare:on|-Xshare:off|-cp|app|Main = home Main jsa-home [app,] - 1000000000
words |-XX:SharedArchiveFile=a|-Xshare:off|-Xshare:on|-cp|app|Main = nothing
words |-XX:SharedArchiveFile=a|-Xshare:off|-Xshare:auto|-cp|app|Main = nothing
words |-Xshare:off|-XX:SharedArchiveFile=a.class|-cp|app|Main = nothing
words |-Xshare:off|-XX:SharedArchiveFile=s:d|-cp|app|Main = nothing
words |-Xshare:off|-XX:SharedClassListFile=l|-cp|app|Main = nothing
words |-Xshare:off|-Xshare:dump|-XX:SharedClassListFile=l|-XX:SharedArchiveFile=a|-cp|d = nothing
words |-Xshare:dump|-XX:SharedClassListFile=l|-XX:SharedArchiveFile=a|-cp|d|-Xshare:off = nothing
words |-Xshare:off = nothing
words |-Xshare:OFF|Main = nothing
words |-Xshare:offMain = nothing
words |\u{ffff} = home \u{ffff} jsa-home [.,] - 1000000000
words |\u{10000} = home #eda080edb080 jsa-home [.,] - 1000000000
words |p.\u{1f600}.A = home #702feda0bdedb8802f41 jsa-home [.,] - 1000000000
words |-XX:SharedArchiveFile=a|-cp|app|\u{1f600} = nothing
words |--asm|| = nothing
words |-XX:SharedArchiveFile=.classes|-cp|-cp|C = run -cp/C.class auto .classes 1000000000
words |-XX:SharedArchiveFile=a.CLASS|-cp|b|C = run b/C.class auto a.CLASS 1000000000
words |-Xshare:dump|-XX:SharedClassListFile=l|-XX:SharedArchiveFile=a|-cp|d = dump d a l
words |-cp|d|-XX:SharedArchiveFile=a|-XX:SharedClassListFile=l|-Xshare:dump = dump d a l
words |-XX:SharedClassListFile=l|-cp|d|-Xshare:dump|-XX:SharedArchiveFile=a = dump d a l
words |-XX:SharedArchiveFile=a|-Xshare:dump|-cp|d|-XX:SharedClassListFile=a = dump d a a
words |--asm|a.txt|classes = asm a.txt classes
words |--asm|--asm|-cp = asm --asm -cp
words |--asm|a:b.class|x.jar = asm a:b.class x.jar
words |--asm = nothing
words |--asm|a.txt = nothing
words |--asm|a.txt|classes|x = nothing
words |--asm||classes = asm  classes
words |--asm|a.txt| = nothing
words |--ASM|a.txt|classes = nothing
words |--asm=a.txt|classes|x = nothing
words |-cp|app|--asm|a.txt|classes = nothing
words |--asm|a.txt|-cp|app = nothing
words |-cp = nothing
words |Main = home Main jsa-home [.,] - 1000000000
words |-Xshare:auto|Main = home Main jsa-home [.,] - 1000000000
words |-cp|app = nothing
words |-classpath|app|Main = home Main jsa-home [app,] - 1000000000
words |-Xshare:auto|-classpath|app|Main = home Main jsa-home [app,] - 1000000000
words |-classpath|app|-Xshare:auto|Main = home Main jsa-home [app,] - 1000000000
words |-XX:SharedArchiveFile=a|-classpath|app|Main = nothing
words |-classpath|app|-XX:SharedArchiveFile=a|Main = nothing
words |-cp|app|Main|x = nothing
words |-cp|app|-cp|app|Main = home Main jsa-home [app,] - 1000000000
words |-Xshare:auto|-cp|app|-cp|app|Main = home Main jsa-home [app,] - 1000000000
words |-cp|app|-cp = nothing
words |--steps=1|--steps=1|-cp|app|Main = home Main jsa-home [app,] - 1
words |-Xshare:auto|--steps=1|--steps=1|-cp|app|Main = home Main jsa-home [app,] - 1
words |-Xshare:auto|-Xshare:auto|-cp|app|Main = home Main jsa-home [app,] - 1000000000
words |-Xshare:auto|-Xshare:on|-cp|app|Main = home Main jsa-home [app,] - 1000000000
words |-Xshare:on|-Xshare:auto|-cp|app|Main = home Main jsa-home [app,] - 1000000000
words |-Xshare:off|-cp|app|Main = home Main jsa-home [app,] - 1000000000
words |-Xshare:dump|-cp|app|Main = nothing
words |-Xshare|-cp|app|Main = nothing
words |-XX:SharedArchiveFile=a|-XX:SharedArchiveFile=a|-cp|app|Main = nothing
words |-XX:SharedArchiveFile=s:d|-cp|app|Main = nothing
words |-XX:SharedArchiveFile=|-cp|app|Main = nothing
words |-XX:SharedArchiveFile=a.class|-cp|app|Main = nothing
words |-XX:SharedClassListFile=l|-cp|app|Main = nothing
words |-cp|app|Main|--steps=1 = nothing
words |-cp|app|Main|-Xshare:on = nothing
words |-cp|app|--steps|Main = nothing
words |-cp|app|--steps=|Main = nothing
words |-cp|app|--steps=18446744073709551616|Main = nothing
words |-Xshare:dump|-XX:SharedClassListFile=l|-XX:SharedArchiveFile=a|-cp|d|Main = nothing
words |-Xshare:dump|-XX:SharedClassListFile=l|-XX:SharedArchiveFile=a|-cp|d|--steps=1 = nothing
words |-Xshare:dump|-XX:SharedClassListFile=l|-XX:SharedArchiveFile=a|-cp|d|-Xshare:dump = nothing
words |-Xshare:dump|-XX:SharedClassListFile=l|-XX:SharedArchiveFile=a|-cp|d|-cp|d = nothing
words |-Xshare:dump|-XX:SharedClassListFile=l|-XX:SharedClassListFile=l|-XX:SharedArchiveFile=a|-cp|d = nothing
words |-Xshare:dump|-XX:SharedArchiveFile=a|-XX:SharedClassListFile=l|-XX:SharedArchiveFile=a|-cp|d = nothing
words |-XX:SharedClassListFile=l|-XX:SharedArchiveFile=a|-cp|d = nothing
words |-Xshare:on|-XX:SharedClassListFile=l|-XX:SharedArchiveFile=a|-cp|d = nothing
words |-Xshare:dump|-XX:SharedArchiveFile=a|-cp|d = nothing
words |-Xshare:dump|-XX:SharedClassListFile=l|-cp|d = nothing
words |-Xshare:dump|-XX:SharedClassListFile=l|-XX:SharedArchiveFile=a = nothing
words |-Xshare:dump|-XX:SharedClassListFile=l.class|-XX:SharedArchiveFile=a|-cp|d = nothing
words |-Xshare:dump|-XX:SharedClassListFile=|-XX:SharedArchiveFile=a|-cp|d = nothing
words |-Xshare:dump|-XX:SharedClassListFile=l|-XX:SharedArchiveFile=s:d|-cp|d = nothing
words |-Xshare:dump|-XX:SharedClassListFile=l|-XX:SharedArchiveFile=.class|-cp|d = nothing
words |-Xshare:dump|-XX:SharedClassListFile=l|-XX:SharedArchiveFile=a|-cp|d:e = nothing
words |-cp|a:b:c|Main = home Main jsa-home [a,b,c,] - 1000000000
words |-classpath|a:b|Main = home Main jsa-home [a,b,] - 1000000000
words |-cp|a|-classpath|b|Main = home Main jsa-home [b,] - 1000000000
words |-classpath|b|-cp|a|Main = home Main jsa-home [a,] - 1000000000
words |-cp|a|-cp|b:c|Main = home Main jsa-home [b,c,] - 1000000000
words |-cp||Main = home Main jsa-home [] - 1000000000
words |-cp|a|-cp||Main = home Main jsa-home [] - 1000000000
words |-cp|a.JAR:**:.zip/|Main = home Main jsa-home [a.JAR,**,.zip/,] - 1000000000
words |-cp|-cp|Main = home Main jsa-home [-cp,] - 1000000000
words |-cp|a:|Main = nothing
words |-cp|:a|Main = nothing
words |-cp|a::b|Main = nothing
words |-cp|:|Main = nothing
words |-cp|*|Main = nothing
words |-cp|a:*|Main = nothing
words |-cp|a.jar|Main = nothing
words |-cp|.jar:a|Main = nothing
words |-cp|a:b.zip|Main = nothing
words |-cp|a|-cp|b:|Main = nothing
words |-cp|Main = nothing
words |-classpath|app = nothing
words |-classpath = nothing
words |-CP|app|Main = nothing
words |--home=h|Main = home Main h [.,] - 1000000000
words |--home=a:b|Main = home Main a:b [.,] - 1000000000
words |--home=h|--home=g|Main = home Main g [.,] - 1000000000
words |--home=--home=|-cp|a|Main = home Main --home= [a,] - 1000000000
words |--home=|Main = nothing
words |--home=h|--home=|Main = nothing
words |--home|h|Main = nothing
words |--home|Main = nothing
words |--home=h = nothing
words |--steps=1|--steps=0x2|Main = home Main jsa-home [.,] - 2
words |--steps=1|--steps=|Main = nothing
words |-XX:DumpLoadedClassList=l.txt|Main = home Main jsa-home [.,] l.txt 1000000000
words |-XX:DumpLoadedClassList=l|-XX:DumpLoadedClassList=m|Main = home Main jsa-home [.,] m 1000000000
words |-XX:DumpLoadedClassList=a:b|Main = nothing
words |-XX:DumpLoadedClassList=l.class|Main = nothing
words |-XX:DumpLoadedClassList=|Main = nothing
words |-XX:DumpLoadedClassList|Main = nothing
words |--home=h|-cp|a:b|-XX:DumpLoadedClassList=l|--steps=3|p.Main = home p/Main h [a,b,] l 3
words |--steps=3|-XX:DumpLoadedClassList=l|-classpath|a:b|--home=h|p.Main = home p/Main h [a,b,] l 3
words |--home=h|-Xshare:auto|-cp|app|Main = home Main h [app,] - 1000000000
words |-Xshare:auto|-cp|app|--home=h|Main = home Main h [app,] - 1000000000
words |-Xshare:on|--home=h|-cp|app|Main = home Main h [app,] - 1000000000
words |--home=h|-XX:SharedArchiveFile=a|-cp|app|Main = nothing
words |-XX:SharedArchiveFile=a|-cp|app|--home=h|Main = nothing
words |-Xshare:dump|-XX:SharedClassListFile=l|-XX:SharedArchiveFile=a|-cp|d|--home=h = nothing
words |--home=h|-Xshare:dump|-XX:SharedClassListFile=l|-XX:SharedArchiveFile=a|-cp|d = nothing
words |-XX:DumpLoadedClassList=l|-Xshare:auto|-cp|app|Main = home Main jsa-home [app,] l 1000000000
words |-Xshare:on|-cp|app|-XX:DumpLoadedClassList=l|Main = home Main jsa-home [app,] l 1000000000
words |-XX:SharedArchiveFile=a|-cp|app|-XX:DumpLoadedClassList=l|Main = nothing
words |-Xshare:dump|-XX:SharedClassListFile=l|-XX:SharedArchiveFile=a|-cp|d|-XX:DumpLoadedClassList=m = nothing
words |x.y.Z = home x/y/Z jsa-home [.,] - 1000000000
words |x/y.Z = home x/y/Z jsa-home [.,] - 1000000000
words |.a..b. = home /a//b/ jsa-home [.,] - 1000000000
words |caf\u{e9}.\u{dc} = home caf\u{e9}/\u{dc} jsa-home [.,] - 1000000000
words |-cp|\u{e9}:\u{fc}|a-b = home a-b jsa-home [\u{e9},\u{fc},] - 1000000000
words | = home  jsa-home [.,] - 1000000000
words |-cp|app| = home  jsa-home [app,] - 1000000000
words |- = nothing
words |-foo = nothing
words |-foo|Main = nothing
words |Main|x = nothing
words |Main|-cp|app = nothing
words |Main| = nothing
words |--make-home|h = make h
words |--make-home|a:b.jar = make a:b.jar
words |--make-home|--make-home = make --make-home
words |--make-home = nothing
words |--make-home| = nothing
words |--make-home|h|x = nothing
words |--make-home|h|--steps=1 = nothing
words |--steps=1|--make-home|h = nothing
words |--MAKE-HOME|h = nothing
words |--make-home=h = nothing";
