//! Sources of which macros, inclusions and positions are what matters.
use super::expand_all;
use std::alloc::Global;
use std::process::Abort;
use std::test::Fail;

// Each source, `m.s`, is expanded with these macros and files.
const LIST: &str = "define D 4 2\ndefine E\nasm m.s\ninclude a.h\ninclude e.h\ninclude l.h
include o.h\ninclude r.h\ninclude u.h\ninclude d/n.h\ninclude q.h\n";

const INCLUDES: [(&str, &str); 8] = [
    ("a.h", "#define B RET\nB\n"),
    ("e.h", "#endif\n"),
    ("l.h", "W\n#line 9 \"z\"\nX\n"),
    ("o.h", "x\n#ifdef A\n"),
    ("r.h", "\n#include \"r.h\"\n"),
    ("u.h", "U\n"),
    ("d/n.h", "\n#include \"a.h\"\nC B"),
    ("q.h", "F(1\n"),
];

// The text of `m.s`, and what is printed or the line of the refusal.
const SOURCES: &[(&str, Result<&str, &str>)] = &[
    ("\n#define A RET\nA", Ok("m.s:3 RET\n")),
    (
        "\n#define MOV2(a,b) MOVQ a, b; MOVQ b, a\nMOV2(AX, BX)",
        Ok("m.s:3 MOVQ AX , BX\nm.s:3 MOVQ BX , AX\n"),
    ),
    // Where tokens stand.
    ("#define A B C\nRET \\\nA", Ok("m.s:2 RET B C\n")),
    ("#define A B C\n\\\nA RET", Ok("m.s:3 B C RET\n")),
    ("#define F(a) a\n\\\nF( \\\n x)", Ok("m.s:3 x\n")),
    ("E \\\n x", Ok("m.s:2 x\n")),
    ("#define A 1 \\\n 2\nA", Ok("m.s:3 1 2\n")),
    ("#define A a; \\\n b\nA", Ok("m.s:3 a\nm.s:3 b\n")),
    ("#define A 1 /*\n */ 2\nA", Ok("m.s:3 1 2\n")),
    ("#include \"a.h\"\nB", Ok("a.h:2 RET\nm.s:2 RET\n")),
    ("#define U 1\n#include \"u.h\"\nU", Ok("u.h:1 1\nm.s:3 1\n")),
    // `#line`.
    ("#line 7 \"y.s\"\nRET", Ok("y.s:7 RET\n")),
    (
        "#line 7 \"y.s\"\nRET\nA\n#line 3 \"z\"\nB\n#line 1 \"y.s\"\nC",
        Ok("y.s:7 RET\ny.s:8 A\nz:3 B\ny.s:1 C\n"),
    ),
    (
        "#line 5000000000 \"y\"\nA\nB",
        Ok("y:2147483646 A\ny:2147483646 B\n"),
    ),
    (
        "#line 2147483645 \"y\"\nA\n\nB",
        Ok("y:2147483645 A\ny:2147483646 B\n"),
    ),
    (
        "#include \"l.h\"\nY\n#include \"l.h\"",
        Ok("l.h:1 W\nz:9 X\nm.s:2 Y\nl.h:1 W\nz:9 X\n"),
    ),
    (
        "#line 3 \"y\"\n#include \"a.h\"\nB",
        Ok("a.h:2 RET\ny:4 RET\n"),
    ),
    ("#ifdef A\n#line 9 \"q\"\n#endif\nB", Ok("m.s:4 B\n")),
    // The names of files are what their texts stand for.
    (
        "#line 7 \"y\\x2es\"\nA\n#line 7 \"y.s\"\nB\n#line 8 \"\\\"\\\\\"\nC",
        Ok("y.s:7 A\ny.s:7 B\n\"\\:8 C\n"),
    ),
    ("#include \"\\x61.h\"\nB", Ok("a.h:2 RET\nm.s:2 RET\n")),
    ("#line 3 \"y\"\n#line 4 \"x\"\n#foo", Err("x:4: M5\n")),
    ("#line 3 \"y\"\nx\n#include \"x.h\"", Err("y:4: M1\n")),
    // The definitions in force.
    (
        "#define A B\n#define B 1\nA\n#undef B\n#define B 2\nA",
        Ok("m.s:3 1\nm.s:6 2\n"),
    ),
    (
        "#define A 1\nA\n#undef A\nA\n#define A 2\nA",
        Ok("m.s:2 1\nm.s:4 A\nm.s:6 2\n"),
    ),
    ("#undef A\nA", Ok("m.s:2 A\n")),
    ("D E x", Ok("m.s:1 4 2 x\n")),
    ("#undef D\nD\n#define D 1\nD", Ok("m.s:2 D\nm.s:4 1\n")),
    (
        "#define A 1\nA.B·A \"A\" A2",
        Ok("m.s:2 1 . B·A \"A\" A2\n"),
    ),
    ("E\n;E;\nE E", Ok("")),
    // Parameters and arguments.
    ("#define F (1)\nF", Ok("m.s:2 ( 1 )\n")),
    ("#define F() RET\nF() F ( )", Ok("m.s:2 RET RET\n")),
    ("#define F(a)a\nF(x) F (y z)", Ok("m.s:2 x y z\n")),
    ("#define F( a , b ) b a\nF(1,2)", Ok("m.s:2 2 1\n")),
    ("#define F(a) a RET\nF()", Ok("m.s:2 RET\n")),
    ("#define F(a,b) a b\nF(,1) F(2,)\nF(,)", Ok("m.s:2 1 2\n")),
    ("#define F(a,b) a b\nF((1,2),3)", Ok("m.s:2 ( 1 , 2 ) 3\n")),
    ("#define F(a,b) a b\nF(b,a)", Ok("m.s:2 b a\n")),
    ("#define X 9\n#define F(X) X\nF(1)", Ok("m.s:3 1\n")),
    ("#define F(a) a\nF(D) F(E)", Ok("m.s:2 4 2\n")),
    ("#define F(a) a a\nF(F(1))", Ok("m.s:2 1 1 1 1\n")),
    ("#define F(a) a; a\nF(1) 2", Ok("m.s:2 1\nm.s:2 1 2\n")),
    ("#define F(a) a\n#define G F\nG(1)", Ok("m.s:3 1\n")),
    (
        "#define F(a) a\n#define G x; F\nG(1)",
        Ok("m.s:3 x\nm.s:3 1\n"),
    ),
    ("#define F(a) G a\n#define G(a) a\nF((1))", Ok("m.s:3 1\n")),
    ("F(x", Ok("m.s:1 F ( x\n")),
    // Directives stand at the beginning of a line alone.
    (" # define A 1\nA", Ok("m.s:2 1\n")),
    ("/* */ #define A 1\nA", Ok("m.s:2 1\n")),
    (
        "RET; #define A 1\nA",
        Ok("m.s:1 RET\nm.s:1 # define A 1\nm.s:2 A\n"),
    ),
    (
        "x \\\n#define A 1\nA",
        Ok("m.s:1 x # define A 1\nm.s:3 A\n"),
    ),
    (
        "#define A # define B 1\nA\nB",
        Ok("m.s:2 # define B 1\nm.s:3 B\n"),
    ),
    (
        "#define A x; #undef E\nA\nE",
        Ok("m.s:2 x\nm.s:2 # undef\n"),
    ),
    ("#define A 1;2\nA", Ok("m.s:2 1\nm.s:2 2\n")),
    // Conditions.
    ("#ifdef A\n1\n#else\n2\n#endif\n3", Ok("m.s:4 2\nm.s:6 3\n")),
    ("#ifndef A\n1\n#else\n2\n#endif", Ok("m.s:2 1\n")),
    ("#ifdef D\n1\n#else\n2\n#endif", Ok("m.s:2 1\n")),
    ("#ifndef E\n1\n#endif", Ok("")),
    ("#undef D\n#ifdef D\n1\n#endif", Ok("")),
    (
        "#ifdef A\n#ifdef D\n1\n#else\n2\n#endif\n3\n#else\n4\n#endif",
        Ok("m.s:9 4\n"),
    ),
    (
        "#ifdef A\n#foo\n#ifdef 1 2\n#else x\n#endif y\nF(\n#else\nRET\n#endif",
        Ok("m.s:8 RET\n"),
    ),
    (
        "#ifdef A\n#include \"x.h\"\n#define B 1\n#undef D\n#endif\nB D",
        Ok("m.s:6 B 4 2\n"),
    ),
    // The files that are built in.
    (
        "#include \"textflag.h\"\nNOPROF DUPOK NOSPLIT RODATA NOPTR WRAPPER\nNEEDCTXT TLSBSS NOFRAME REFLECTMETHOD TOPFRAME ABIWRAPPER",
        Ok("m.s:2 1 2 4 8 16 32\nm.s:3 64 256 512 1024 2048 4096\n"),
    ),
    (
        "#include \"funcdata.h\"\nGO_ARGS\nNO_LOCAL_POINTERS\nGO_RESULTS_INITIALIZED; x",
        Ok("m.s:4 x\n"),
    ),
    (
        "#include \"textflag.h\"\n#undef DUPOK\nDUPOK\n#include \"textflag.h\"\nDUPOK|NOPTR",
        Ok("m.s:3 DUPOK\nm.s:5 2 | 16\n"),
    ),
    (
        "#define RODATA 1\n\n#include \"textflag.h\"",
        Err("m.s:3: M6\n"),
    ),
    (
        "#include \"textflag.h\"\n#define RODATA 8",
        Err("m.s:2: M6\n"),
    ),
    (
        "#include \"textflag.h\"\n#undef RODATA\n#define RODATA 8\n#include \"textflag.h\"",
        Err("m.s:4: M6\n"),
    ),
    (
        "x\n#define GO_ARGS\n#include \"funcdata.h\"",
        Err("m.s:3: M6\n"),
    ),
    // Other inclusions.
    (
        "#include \"d/n.h\"\nB",
        Ok("a.h:2 RET\nd/n.h:3 C RET\nm.s:2 RET\n"),
    ),
    ("#include \"x.h\"", Err("m.s:1: M1\n")),
    ("\n\n#include \"A.h\"", Err("m.s:3: M1\n")),
    ("#include \"n.h\"", Err("m.s:1: M1\n")),
    ("#include \"m.s\"", Err("m.s:1: M1\n")),
    ("\n#include \"a.h\"\n#include \"a.h\"", Err("a.h:1: M6\n")),
    // Arguments that are too few, too many or missing.
    ("#define F(a) a\nF(1,2)", Err("m.s:2: M2\n")),
    ("#define F(a,b) a\n\nF(1)", Err("m.s:3: M2\n")),
    ("#define F(a,b) a\nx; F()", Err("m.s:2: M2\n")),
    ("#define F() 1\nF(2)", Err("m.s:2: M2\n")),
    ("#define F(a) a\nx \\\n F", Err("m.s:2: M3\n")),
    ("#define F(a) a\nF\n(1)", Err("m.s:2: M3\n")),
    ("#define F(a) a\n\nF(1\n)", Err("m.s:3: M3\n")),
    ("#define F(a) a\nF(1;2)", Err("m.s:2: M3\n")),
    ("#define F(a) a\n#define G F\nG x", Err("m.s:3: M3\n")),
    ("#define F(a) a\n#include \"q.h\"\n)", Err("q.h:1: M3\n")),
    // Macros that don't end.
    ("\n#define A A\nA", Err("m.s:3: M4\n")),
    ("#define A B\n#define B x A\n\nA", Err("m.s:4: M4\n")),
    ("#define F(a) F(a)\nx \\\n F(1)", Err("m.s:2: M4\n")),
    ("\n#include \"r.h\"", Err("r.h:2: M4\n")),
    // The first statement, and in it the lowest number.
    ("#define F(a) a\nF F(1,2)", Err("m.s:2: M2\n")),
    ("#define F(a) a\nF(F(1,2)", Err("m.s:2: M2\n")),
    ("#define A A\n#define F(a) a\nA F(1,2)", Err("m.s:3: M2\n")),
    ("#define A A\n#define F(a) a\nA F", Err("m.s:3: M3\n")),
    ("#define A A\n#define F(a) a\nA; F", Err("m.s:3: M4\n")),
    ("#define A A\n#define F(a) a\nA\nF(1,2)", Err("m.s:3: M4\n")),
    // Second definitions.
    ("#define A 1\n#define A 1", Err("m.s:2: M6\n")),
    ("#define A 1\n#define A() 1", Err("m.s:2: M6\n")),
    ("\n#define D 1", Err("m.s:2: M6\n")),
    ("#define A 1\n#define A(x,) 1", Err("m.s:2: M5\n")),
];

// The text of `m.s`, and the place of a directive of no known form or of a condition without its counterpart.
const DIRECTIVES: &[(&str, &str)] = &[
    ("#", "m.s:1: M5\n"),
    ("x\n#foo", "m.s:2: M5\n"),
    ("#if 1", "m.s:1: M5\n"),
    ("#define", "m.s:1: M5\n"),
    ("#define 1 2", "m.s:1: M5\n"),
    ("#define F(a,) a", "m.s:1: M5\n"),
    ("#define F(a a) a", "m.s:1: M5\n"),
    ("#define F(a,a) a", "m.s:1: M5\n"),
    ("#define F(1) a", "m.s:1: M5\n"),
    ("#define F(a", "m.s:1: M5\n"),
    ("#undef", "m.s:1: M5\n"),
    ("#undef A; x", "m.s:1: M5\n"),
    ("#include x", "m.s:1: M5\n"),
    ("#include \"a.h\" x", "m.s:1: M5\n"),
    ("#line 1", "m.s:1: M5\n"),
    ("#line \"a\" 1", "m.s:1: M5\n"),
    ("#line 1 \"a\" 2", "m.s:1: M5\n"),
    ("#ifdef\n#endif", "m.s:1: M5\n"),
    ("#ifdef A B\n#endif", "m.s:1: M5\n"),
    ("#ifndef 1\n#endif", "m.s:1: M5\n"),
    ("#ifdef A\n#endif x", "m.s:2: M5\n"),
    ("#ifdef A\n#else x\n#endif", "m.s:2: M5\n"),
    ("#ifdef A\n#else\n#else\n#endif", "m.s:3: M5\n"),
    ("#ifdef D\n#else\n#else\n#endif", "m.s:3: M5\n"),
    (
        "#ifdef A\n#ifdef B\n#else\n#else\n#endif\n#endif",
        "m.s:4: M5\n",
    ),
    ("x\n#else", "m.s:2: M5\n"),
    ("x\n#endif", "m.s:2: M5\n"),
    ("#ifdef A\n\n#ifdef B\n", "m.s:3: M5\n"),
    ("#ifdef A\n#ifdef B\n#endif\nx", "m.s:1: M5\n"),
    ("#ifndef A\n#include \"e.h\"\n#endif", "e.h:1: M5\n"),
    ("#include \"o.h\"\n#endif", "o.h:2: M5\n"),
    // A condition that stays open counts at the end of its file.
    ("#ifndef A\n#include \"x.h\"", "m.s:2: M1\n"),
];

/// Tests each source.
pub fn macros_are_expanded_or_refused<R: Abort>(rt: &R, alloc: Global) -> Result<(), Fail> {
    for (source, want) in SOURCES {
        let mut files = Vec::from_slice(alloc, &INCLUDES)?;
        files.push(("m.s", source))?;
        expand_all(rt, alloc, LIST, &files, *want)?;
    }
    for (source, line) in DIRECTIVES {
        let mut files = Vec::from_slice(alloc, &INCLUDES)?;
        files.push(("m.s", source))?;
        expand_all(rt, alloc, LIST, &files, Err(line))?;
    }
    Ok(())
}
