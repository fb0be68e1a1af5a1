//! Workers, and what commands of `tpw` write of them.

/// An image: no text says it.
pub const INCREMENT_LISTED: &str = "\
YES 16 16
budget   16
    at  bytes                   left  instruction
     0  10                        16  ldlp 0
     1  24f2                      15  mint
     3  54                        13  ldnlp 4
     4  44                        12  ldc 4
     5  f7                        11  in
     6  70                        10  ldl 0
     7  81                         9  adc 1
     8  d0                         8  stl 0
     9  10                         7  ldlp 0
    10  24f2                       6  mint
    12  44                         4  ldc 4
    13  fb                         3  out
    14  21f5                       2  stopp
";

/// A loop of three turns, each of seven bytes: three in the loop's body, four for its end.
pub const LOOP: &str = "\
loop head i_head lend i_lend control 6 turns 3 start 0
ldlp 0
mint
ldnlp 4
ldc 4
in
ldc 0
stl 1
ldc 3
stl 2
i_head:
ldl 0
adc 1
stl 0
ldlp 1
ldc i_behind - i_head
i_lend:
lend
i_behind:
ldlp 0
mint
ldc 4
out
stopp
";
