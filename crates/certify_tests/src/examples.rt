//! Tests of the scripts in `examples/`: `bench/examples.py --rows` prints the rows of the table.

use crate::program::does;
use sat_base::Counted;
use std::alloc::Global;

/// A script, the standard output, the status, and the standard error.
static EXAMPLES: [(&str, &str, u8, &str); 6] = [
    (
        "\
c A counter of two bits, which counts or pauses at each step. When can it reach three?\n\
c Names: 1 and 2 are the low and the high bit now, 4 and 5 those after the step; 3 is the input \"count\", 6 the carry.\n\
c The next step swaps the names: 4 and 5 are the bits now, 1 and 2 those after it.\n\
c\n\
c At first both bits are false.\n\
-1 0  -2 0\n\
c\n\
c Step 1. The low bit changes with the input: 4 = 1 xor 3.\n\
-4 1 3 0  -4 -1 -3 0  4 -1 3 0  4 1 -3 0\n\
c The carry: 6 = 1 and 3. The high bit changes with the carry: 5 = 2 xor 6.\n\
-6 1 0  -6 3 0  6 -1 -3 0\n\
-5 2 6 0  -5 -2 -6 0  5 -2 6 0  5 2 -6 0\n\
c Are both bits true after one step?\n\
a 4 5 0\n\
c Hide the names of the past. Clauses still constrain their variables.\n\
h 1 2 3 6 0\n\
c\n\
c Step 2: 1 = 4 xor 3, 6 = 4 and 3, 2 = 5 xor 6.\n\
-1 4 3 0  -1 -4 -3 0  1 -4 3 0  1 4 -3 0\n\
-6 4 0  -6 3 0  6 -4 -3 0\n\
-2 5 6 0  -2 -5 -6 0  2 -5 6 0  2 5 -6 0\n\
a 1 2 0\n\
h 4 5 3 6 0\n\
c\n\
c Step 3: as step 1.\n\
-4 1 3 0  -4 -1 -3 0  4 -1 3 0  4 1 -3 0\n\
-6 1 0  -6 3 0  6 -1 -3 0\n\
-5 2 6 0  -5 -2 -6 0  5 -2 6 0  5 2 -6 0\n\
a 4 5 0\n\
c And if the counter pauses at the last step?\n\
a 4 5 -3 0\n",
        "\
s UNSATISFIABLE\n\
f 5 0\n\
s UNSATISFIABLE\n\
f 1 2 0\n\
s SATISFIABLE\n\
v -1 2 3 4 5 -6 0\n\
s UNSATISFIABLE\n\
f -3 4 5 0\n\
c confirmed\n",
        0,
        "\
[INFO  certify] progress conflicts=6 restarts=1 vars=10 binary=9 irred=14 core=1 mid=0 local=0\n",
    ),
    (
        "\
c The last script, after those of four machines. The negations of their cores 1, 1, -1 5 and -1 follow from their clauses.\n\
-1 0\n\
-1 0\n\
1 -5 0\n\
1 0\n\
a 0\n",
        "\
s UNSATISFIABLE\n\
f 0\n\
c confirmed\n",
        0,
        "\
[INFO  certify] progress conflicts=0 restarts=0 vars=1 binary=1 irred=0 core=0 mid=0 local=0\n",
    ),
    (
        "\
c Four pigeons and three holes. The name 3 * (p - 1) + h means that pigeon p is in hole h.\n\
c Each pigeon is in a hole.\n\
1 2 3 0\n\
4 5 6 0\n\
7 8 9 0\n\
10 11 12 0\n\
c No two pigeons are in one hole. A line for each hole.\n\
-1 -4 0  -1 -7 0  -1 -10 0  -4 -7 0  -4 -10 0  -7 -10 0\n\
-2 -5 0  -2 -8 0  -2 -11 0  -5 -8 0  -5 -11 0  -8 -11 0\n\
-3 -6 0  -3 -9 0  -3 -12 0  -6 -9 0  -6 -12 0  -9 -12 0\n\
c\n\
c Four cubes: pigeon 1 is in hole 1 or not, and pigeon 2 is in hole 2 or not. This is the script of the third of four machines.\n\
c The others have the same clauses, and the asks a 1 5 0, a 1 -5 0 and a -1 -5 0.\n\
a -1 5 0\n",
        "\
s UNSATISFIABLE\n\
f -1 5 0\n\
c confirmed\n",
        0,
        "\
[INFO  certify] progress conflicts=2 restarts=1 vars=12 binary=19 irred=4 core=0 mid=0 local=0\n",
    ),
    (
        "\
c A feature model of a phone. True means that the product has the feature:\n\
c 1 phone, 2 screen, 3 basic, 4 colour, 5 high resolution, 6 camera, 7 media,\n\
c 8 positioning, 9 maps, 10 offline maps\n\
c\n\
c The root is in every product.\n\
1 0\n\
c A child needs its parent.\n\
-2 1 0  -6 7 0  -7 1 0  -8 1 0  -9 8 0  -10 9 0\n\
c The screen is mandatory. It is exactly one of 3, 4 and 5.\n\
-1 2 0\n\
-2 3 4 5 0\n\
-3 2 0  -4 2 0  -5 2 0\n\
-3 -4 0  -3 -5 0  -4 -5 0\n\
c A camera needs high resolution, maps need colour or high resolution.\n\
-6 5 0\n\
-9 4 5 0\n\
c Positioning excludes the basic screen.\n\
-8 -3 0\n\
c Offline maps are shown with pictures from the camera.\n\
-10 6 0\n\
c\n\
c Is there any product?\n\
a 0\n\
c Is a feature dead? Each of these asks has to be satisfiable.\n\
a 6 0\n\
a 10 0\n\
c Is a feature in every product? It is, if its negation is unsatisfiable.\n\
a -2 0\n\
a -8 0\n\
c A customer chooses offline maps and a cheap colour screen. Which choices clash?\n\
a 4 9 10 0\n\
c The customer drops the colour screen, and chooses no other.\n\
a 9 10 0\n\
c Which screen can stay open? With offline maps, not having high resolution clashes.\n\
a -5 10 0\n",
        "\
s SATISFIABLE\n\
v 1 2 -3 -4 5 -6 -7 -8 -9 -10 0\n\
s SATISFIABLE\n\
v 1 2 -3 -4 5 6 7 -8 -9 -10 0\n\
s SATISFIABLE\n\
v 1 2 -3 -4 5 6 7 8 9 10 0\n\
s UNSATISFIABLE\n\
f -2 0\n\
s SATISFIABLE\n\
v 1 2 -3 -4 5 6 7 -8 -9 -10 0\n\
s UNSATISFIABLE\n\
f 4 10 0\n\
s SATISFIABLE\n\
v 1 2 -3 -4 5 6 7 8 9 10 0\n\
s UNSATISFIABLE\n\
f -5 10 0\n\
c confirmed\n",
        0,
        "\
[INFO  certify] progress conflicts=8 restarts=1 vars=8 binary=9 irred=2 core=0 mid=0 local=0\n",
    ),
    (
        "\
c Packages. A name is a package in one version, and true means \"installed\":\n\
c 1 shop 2.0, 2 web 1.0, 3 web 2.0, 4 tls 1.1, 5 tls 3.0, 6 log 1.0, 7 log 2.0, 8 mail 1.4\n\
c Each rule has a selector, from 11 on: the rule holds if its selector is assumed.\n\
c\n\
c 11: shop 2.0 needs web 2.0\n\
-11 -1 3 0\n\
c 12: web 2.0 needs tls 3.0\n\
-12 -3 5 0\n\
c 13: mail 1.4 needs log 1.0\n\
-13 -8 6 0\n\
c 14: log 1.0 needs tls 1.1\n\
-14 -6 4 0\n\
c 15, 16, 17: of web, tls and log there is at most one version\n\
-15 -2 -3 0\n\
-16 -4 -5 0\n\
-17 -6 -7 0\n\
c 18: web 1.0 needs any tls\n\
-18 -2 4 5 0\n\
c 19: log 2.0 needs tls 3.0\n\
-19 -7 5 0\n\
c 21, 22: the user wants shop 2.0 and mail 1.4\n\
-21 1 0\n\
-22 8 0\n\
c\n\
c Can all rules and both wishes be met? The core names those that clash.\n\
a 11 12 13 14 15 16 17 18 19 21 22 0\n\
c Each wish alone can be met.\n\
a 11 12 13 14 15 16 17 18 19 21 0\n\
a 11 12 13 14 15 16 17 18 19 22 0\n\
c\n\
c A new version comes out: 9 is mail 1.5. 20: mail 1.5 needs log 2.0. 23: the user wants mail in any version.\n\
-20 -9 7 0\n\
-23 8 9 0\n\
a 11 12 13 14 15 16 17 18 19 20 21 23 0\n",
        "\
s UNSATISFIABLE\n\
f 11 12 13 14 16 21 22 0\n\
s SATISFIABLE\n\
v 1 -2 3 -4 5 -6 -7 -8 -9 -10 11 12 13 14 15 16 17 18 19 -20 21 -22 0\n\
s SATISFIABLE\n\
v -1 -2 -3 4 -5 6 -7 8 -9 -10 11 12 13 14 15 16 17 18 19 -20 -21 22 0\n\
s SATISFIABLE\n\
v 1 -2 3 -4 5 -6 7 -8 9 -10 11 12 13 14 15 16 17 18 19 20 21 -22 23 0\n\
c confirmed\n",
        0,
        "\
[INFO  certify] progress conflicts=4 restarts=1 vars=22 binary=2 irred=11 core=0 mid=0 local=0\n",
    ),
    (
        "\
c Six exams in five slots. The name 5 * (e - 1) + s means that exam e, from 1 to 6, is in slot s, from 1 to 5.\n\
c The selectors 31 to 36 mean that exams 1 to 6 take place.\n\
c\n\
c Each exam that takes place has a slot.\n\
-31 1 2 3 4 5 0\n\
-32 6 7 8 9 10 0\n\
-33 11 12 13 14 15 0\n\
-34 16 17 18 19 20 0\n\
-35 21 22 23 24 25 0\n\
-36 26 27 28 29 30 0\n\
c Every two exams have students in common: they are never in one slot. A line for each pair.\n\
-1 -6 0  -2 -7 0  -3 -8 0  -4 -9 0  -5 -10 0\n\
-1 -11 0  -2 -12 0  -3 -13 0  -4 -14 0  -5 -15 0\n\
-1 -16 0  -2 -17 0  -3 -18 0  -4 -19 0  -5 -20 0\n\
-1 -21 0  -2 -22 0  -3 -23 0  -4 -24 0  -5 -25 0\n\
-1 -26 0  -2 -27 0  -3 -28 0  -4 -29 0  -5 -30 0\n\
-6 -11 0  -7 -12 0  -8 -13 0  -9 -14 0  -10 -15 0\n\
-6 -16 0  -7 -17 0  -8 -18 0  -9 -19 0  -10 -20 0\n\
-6 -21 0  -7 -22 0  -8 -23 0  -9 -24 0  -10 -25 0\n\
-6 -26 0  -7 -27 0  -8 -28 0  -9 -29 0  -10 -30 0\n\
-11 -16 0  -12 -17 0  -13 -18 0  -14 -19 0  -15 -20 0\n\
-11 -21 0  -12 -22 0  -13 -23 0  -14 -24 0  -15 -25 0\n\
-11 -26 0  -12 -27 0  -13 -28 0  -14 -29 0  -15 -30 0\n\
-16 -21 0  -17 -22 0  -18 -23 0  -19 -24 0  -20 -25 0\n\
-16 -26 0  -17 -27 0  -18 -28 0  -19 -29 0  -20 -30 0\n\
-21 -26 0  -22 -27 0  -23 -28 0  -24 -29 0  -25 -30 0\n\
c\n\
c Can all six take place?\n\
a 31 32 33 34 35 36 0\n\
c Can five, if exam 1 isn't in slot 1 and exam 2 is in slot 3?\n\
a 31 32 33 34 35 -1 8 0\n\
c Can they, if exams 1 and 2 both insist on slot 3?\n\
a 31 32 33 34 35 3 8 0\n",
        "\
s UNSATISFIABLE\n\
f 31 32 33 34 35 36 0\n\
s SATISFIABLE\n\
v -1 2 -3 -4 -5 -6 -7 8 -9 -10 -11 -12 -13 14 -15 -16 -17 -18 -19 20 21 -22 -23 -24 -25 -26 -27 -28 -29 -30 31 32 33 34 35 -36 0\n\
s UNSATISFIABLE\n\
f 3 8 0\n\
c confirmed\n",
        0,
        "\
[INFO  certify] progress conflicts=156 restarts=2 vars=36 binary=75 irred=6 core=0 mid=87 local=66\n",
    ),
];

fn examples() -> &'static [(&'static str, &'static str, u8, &'static str)] {
    &EXAMPLES
}

#[test]
fn examples_are_answered(rt: HostRuntime) {
    for &(script, printed, status, message) in examples() {
        let mut input = Counted::new(script.as_bytes());
        assert!(rt;
            does(
                &rt,
                Ok(Vec::new(rt.alloc())),
                &mut input,
                (status, printed, message)
            ),
            "{script}"
        );
    }
}
