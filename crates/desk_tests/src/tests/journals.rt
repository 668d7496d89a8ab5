//! Journals that are worked, each by its subject.

/// Journals of a line of two boxes with bells alone.
pub const ON_BELLS: [(&str, &str); 5] = [
    (
        "both boxes await the other",
        "journal 1\n\
1 Ash 10:00 await_bell down 1 -> not_yet 0 none\n\
2 Ash 10:00 ring down 1 -> rung 1\n\
3 Beech 10:00 await_bell up 1 -> heard 1 1\n\
4 Beech 10:00 ring up 1 -> rung 1\n\
end\n",
    ),
    (
        "boxes without a call",
        "journal 1\n\
end\n",
    ),
    (
        "no bell has rung",
        "journal 1\n\
1 Ash 06:00 hear down -> silent 0\n\
2 Ash 06:01 hear down -> silent 0\n\
3 Beech 05:00 hear up -> silent 0\n\
4 Beech 05:00 hear up -> silent 0\n\
end\n",
    ),
    (
        "second code while the first is unheard",
        "journal 1\n\
1 Ash 10:00 ring down 1 -> rung 1\n\
2 Ash 10:00 ring down 4 -> bell_busy 1 1\n\
end\n",
    ),
    (
        "two boxes exchange call attention",
        "journal 1\n\
1 Ash 10:00 ring down 1 -> rung 1\n\
2 Beech 10:00 await_bell up 1 -> heard 1 1\n\
3 Beech 10:00 ring up 1 -> rung 1\n\
4 Ash 10:00 await_bell down 1 -> heard 1 1\n\
end\n",
    ),
];

/// Journals of a line of two boxes with bells alone, on which an await looks once.
pub const ON_BELLS_AFTER_ONE_LOOK: [(&str, &str); 1] = [(
    "another code than the one awaited",
    "journal 1\n\
1 Ash 00:00 ring down 3-1 -> rung 1\n\
2 Beech 23:59 await_bell up 2-1 -> not_yet 1 3-1\n\
3 Beech 23:59 hear up -> heard 1 3-1\n\
4 Beech 23:59 hear up -> silent 1\n\
end\n",
)];

/// The same with its moments in seconds.
pub const ON_BELLS_IN_SECONDS: [(&str, &str); 2] = [
    (
        "call attention in seconds",
        "journal 2\n\
1 Ash 10:00:00 ring down 1 -> rung 1\n\
2 Beech 10:00:07 await_bell up 1 -> heard 1 1\n\
3 Beech 23:59:59 ring up 1 -> rung 1\n\
4 Ash 10:01:59 await_bell down 1 -> heard 1 1\n\
end\n",
    ),
    (
        "register in seconds",
        "journal 2\n\
1 Beech 00:00:00 await_bell up 1 -> not_yet 0 none\n\
2 Beech 10:01:01 ring up 1 -> rung 1\n\
3 Beech 23:59:59 ring up 4 -> bell_busy 1 1\n\
end\n",
    ),
];

/// Journals of a line of three boxes with bells alone.
pub const ON_BELLS_OF_THREE_BOXES: [(&str, &str); 2] = [
    (
        "code passed down three boxes",
        "journal 1\n\
1 Ash 10:00 ring down 4 -> rung 1\n\
2 Beech 10:00 await_bell up 4 -> heard 1 4\n\
3 Beech 10:00 ring down 4 -> rung 1\n\
4 Beech 10:01 ring up 1 -> rung 1\n\
5 Cedar 09:00 await_bell up 4 -> heard 1 4\n\
6 Cedar 09:00 hear up -> silent 1\n\
end\n",
    ),
    (
        "second box awaits the third",
        "journal 1\n\
1 Cedar 10:00 ring up 1 -> rung 1\n\
2 Beech 10:00 await_bell down 1 -> heard 1 1\n\
end\n",
    ),
];

/// Journals of the line of two boxes and six trains, which is absolute.
pub const ON_AN_ABSOLUTE_LINE: [(&str, &str); 16] = [
    (
        "arm at danger behind a train",
        "journal 1\n\
1 Ash 10:00 bring t1 -> brought\n\
2 Beech 10:00 turn down line_clear -> turned 1\n\
3 Ash 10:00 await_block down line_clear -> seen 1\n\
4 Ash 10:00 pull 8 -> pulled_under 1\n\
5 Ash 10:00 pass 8 -> entered 1 t1\n\
6 Ash 10:00 bring t2 -> brought\n\
7 Ash 10:00 pass 8 -> at_danger\n\
end\n",
    ),
    (
        "control released after the delay",
        "journal 1\n\
1 Beech 10:00 turn down line_clear -> turned 1\n\
2 Beech 10:00 turn down line_clear -> already_there\n\
3 Beech 10:00 wind down -> not_at_normal\n\
4 Beech 10:00 turn down normal -> turned 2\n\
5 Beech 10:00 turn down line_clear -> welwyn_holds given\n\
6 Beech 10:00 wind down -> winding 10:02\n\
7 Beech 10:00 wind down -> already_winding\n\
8 Beech 10:01 release down -> too_soon 10:02\n\
9 Beech 10:02 release down -> released\n\
10 Beech 10:02 release down -> not_winding\n\
11 Beech 10:02 turn down line_clear -> turned 3\n\
end\n",
    ),
    (
        "lever held both ways",
        "journal 1\n\
1 Ash 10:00 pull 4 -> pulled\n\
2 Ash 10:00 pull 3 -> pulled\n\
3 Ash 10:00 put 4 -> held_by_lever 3 row 2\n\
4 Ash 10:00 put 3 -> put\n\
5 Ash 10:00 put 4 -> put\n\
6 Ash 10:00 put 4 -> already_normal\n\
end\n",
    ),
    (
        "lever held by a row with a condition",
        "journal 1\n\
1 Ash 10:00 pull 1 -> pulled\n\
2 Ash 10:00 pull 2 -> pulled\n\
3 Ash 10:00 pull 6 -> held_by_lever 1 row 3\n\
end\n",
    ),
    (
        "lever held by both levers of a row",
        "journal 1\n\
1 Ash 10:00 pull 5 -> pulled\n\
2 Ash 10:00 pull 2 -> held_by_lever 5 row 1\n\
3 Ash 10:00 put 5 -> put\n\
4 Ash 10:00 pull 2 -> pulled\n\
5 Ash 10:00 pull 2 -> already_reversed\n\
6 Ash 10:00 pull 5 -> held_by_lever 2 row 1\n\
end\n",
    ),
    (
        "line clear kept back",
        "journal 1\n\
1 Ash 10:00 bring t1 -> brought\n\
2 Ash 10:00 overrun 8 -> entered 1 t1\n\
3 Beech 10:00 pull 1 -> pulled\n\
4 Beech 10:00 turn down line_clear -> home_reversed 1\n\
5 Beech 10:00 put 1 -> put\n\
6 Beech 10:00 await_train down -> approaching 1 t1\n\
7 Beech 10:00 berth down -> berthed 1 t1\n\
8 Beech 10:00 turn down line_clear -> track_occupied B t1\n\
9 Beech 10:00 pull 1 -> pulled\n\
10 Beech 10:00 pass 1 -> passed t1\n\
11 Beech 10:00 put 1 -> put\n\
12 Beech 10:00 turn down line_clear -> track_occupied M t1\n\
13 Beech 10:00 turn down train_on_line -> turned 1\n\
14 Beech 10:00 turn down line_clear -> not_from_normal\n\
end\n",
    ),
    (
        "no train and no bell",
        "journal 1\n\
1 Beech 10:00 berth down -> no_train 1\n\
2 Beech 10:00 pull 1 -> pulled\n\
3 Beech 10:00 overrun 1 -> no_train\n\
4 Beech 10:00 hear up -> silent 0\n\
end\n",
    ),
    (
        "overrun into an occupied section",
        "journal 1\n\
1 Ash 10:00 bring t1 -> brought\n\
2 Beech 10:00 turn down line_clear -> turned 1\n\
3 Ash 10:00 await_block down line_clear -> seen 1\n\
4 Ash 10:00 pull 8 -> pulled_under 1\n\
5 Ash 10:00 pass 8 -> entered 1 t1\n\
6 Ash 10:00 bring t2 -> brought\n\
7 Ash 10:00 pass 8 -> at_danger\n\
8 Ash 10:00 overrun 8 -> entered 2 t2\n\
end\n",
    ),
    (
        "overrun of an arm that is off",
        "journal 1\n\
1 Beech 10:00 turn down line_clear -> turned 1\n\
2 Ash 10:00 await_block down line_clear -> seen 1\n\
3 Ash 10:00 pull 8 -> pulled_under 1\n\
4 Ash 10:00 bring t1 -> brought\n\
5 Ash 10:00 overrun 8 -> arm_off\n\
end\n",
    ),
    (
        "overrun tried too early",
        "journal 1\n\
1 Ash 10:00 bring t1 -> brought\n\
2 Beech 10:00 turn down line_clear -> turned 1\n\
3 Ash 10:00 await_block down line_clear -> seen 1\n\
4 Ash 10:00 pull 8 -> pulled_under 1\n\
5 Ash 10:00 overrun 8 -> arm_off\n\
6 Ash 10:00 pass 8 -> entered 1 t1\n\
7 Ash 10:00 bring t2 -> brought\n\
8 Ash 10:00 pass 8 -> at_danger\n\
end\n",
    ),
    (
        "plain line full of trains",
        "journal 1\n\
1 Ash 10:00 bring t1 -> brought\n\
2 Ash 10:00 overrun 8 -> entered 1 t1\n\
3 Ash 10:00 bring t2 -> brought\n\
4 Ash 10:00 overrun 8 -> entered 2 t2\n\
5 Ash 10:00 bring t4 -> brought\n\
6 Ash 10:00 overrun 8 -> entered 3 t4\n\
7 Ash 10:00 bring t5 -> brought\n\
8 Ash 10:00 overrun 8 -> entered 4 t5\n\
9 Ash 10:00 bring t6 -> brought\n\
10 Ash 10:00 overrun 8 -> section_full 5\n\
11 Ash 10:00 ring down 1 -> rung 1\n\
12 Beech 10:00 await_bell up 1 -> heard 1 1\n\
13 Beech 10:00 berth down -> berthed 1 t1\n\
14 Beech 10:00 ring up 1 -> rung 1\n\
15 Ash 10:00 await_bell down 1 -> heard 1 1\n\
16 Ash 10:00 overrun 8 -> entered 5 t6\n\
end\n",
    ),
    (
        "spare lever and trains brought",
        "journal 1\n\
1 Ash 10:00 pull 7 -> spare\n\
2 Ash 10:00 put 7 -> already_normal\n\
3 Ash 10:00 pass 8 -> no_train\n\
4 Ash 10:00 bring t3 -> brought\n\
5 Ash 10:00 bring t3 -> already_brought\n\
6 Ash 10:00 pull 3 -> held_by_track Q t3\n\
7 Ash 10:00 bring t1 -> brought\n\
8 Ash 10:00 bring t2 -> occupied P t1\n\
end\n",
    ),
    (
        "starter pulled once under line clear",
        "journal 1\n\
1 Ash 10:00 pull 8 -> held_by_instrument down 0 normal unspent\n\
2 Ash 10:00 pull 8 -> held_by_instrument down 0 normal spent\n\
3 Ash 10:00 ring down 1 -> rung 1\n\
4 Beech 10:00 await_bell up 1 -> heard 1 1\n\
5 Beech 10:00 turn down line_clear -> turned 1\n\
6 Ash 10:00 await_block down line_clear -> seen 1\n\
7 Ash 10:00 pull 8 -> pulled_under 1\n\
8 Ash 10:00 put 8 -> put\n\
9 Ash 10:00 pull 8 -> held_by_instrument down 1 line_clear spent\n\
end\n",
    ),
    (
        "train berthed in part",
        "journal 1\n\
1 Ash 10:00 bring t1 -> brought\n\
2 Beech 10:00 turn down line_clear -> turned 1\n\
3 Ash 10:00 await_block down line_clear -> seen 1\n\
4 Ash 10:00 pull 8 -> pulled_under 1\n\
5 Ash 10:00 pass 8 -> entered 1 t1\n\
6 Ash 10:00 bring t2 -> brought\n\
7 Ash 10:00 overrun 8 -> entered 2 t2\n\
8 Beech 10:00 await_train down -> approaching 1 t1\n\
9 Beech 10:00 berth_part down -> part_berthed 1 t1\n\
10 Beech 10:00 berth down -> portion_ahead t1\n\
11 Beech 10:00 pull 1 -> pulled\n\
12 Beech 10:00 pass 1 -> passed t1\n\
13 Beech 10:00 clear_portion down -> cleared 1 t1\n\
14 Beech 10:00 clear_portion down -> no_portion\n\
15 Beech 10:00 await_train down -> approaching 2 t2\n\
16 Beech 10:00 berth down -> berthed 2 t2\n\
17 Beech 10:00 berth down -> occupied t2\n\
end\n",
    ),
    (
        "two trains on an absolute line",
        "journal 1\n\
1 Ash 10:00 bring t1 -> brought\n\
2 Beech 10:00 turn down line_clear -> turned 1\n\
3 Ash 10:00 await_block down line_clear -> seen 1\n\
4 Ash 10:00 pull 8 -> pulled_under 1\n\
5 Ash 10:00 pass 8 -> entered 1 t1\n\
6 Ash 10:00 put 8 -> put\n\
7 Ash 10:00 ring down 2 -> rung 1\n\
8 Ash 10:00 bring t2 -> brought\n\
9 Beech 10:00 await_bell up 2 -> heard 1 2\n\
10 Beech 10:00 turn down train_on_line -> turned 2\n\
11 Beech 10:00 turn down normal -> turned 3\n\
12 Beech 10:00 turn down line_clear -> welwyn_holds given\n\
13 Beech 10:00 ring up 1 -> rung 1\n\
14 Ash 10:00 await_bell down 1 -> heard 1 1\n\
15 Ash 10:00 pull 8 -> held_by_instrument down 3 normal unspent\n\
16 Ash 10:00 pass 8 -> at_danger\n\
end\n",
    ),
    (
        "starter pulled under line clear",
        "journal 1\n\
1 Ash 10:00 pull 8 -> held_by_instrument down 0 normal unspent\n\
2 Ash 10:00 pull 8 -> held_by_instrument down 0 normal spent\n\
3 Ash 10:00 ring down 1 -> rung 1\n\
4 Beech 10:00 await_bell up 1 -> heard 1 1\n\
5 Beech 10:00 turn down line_clear -> turned 1\n\
6 Ash 10:00 await_block down line_clear -> seen 1\n\
7 Ash 10:00 pull 8 -> pulled_under 1\n\
end\n",
    ),
];

/// Journals of the line of two boxes and six trains, which is permissive.
pub const ON_A_PERMISSIVE_LINE: [(&str, &str); 2] = [
    (
        "permissive line full",
        "journal 1\n\
1 Beech 10:00 turn down line_clear -> turned 1\n\
2 Beech 10:00 turn down normal -> turned 2\n\
3 Beech 10:00 turn down line_clear -> turned 3\n\
4 Beech 10:00 turn down normal -> turned 4\n\
5 Beech 10:00 turn down line_clear -> count_full 2\n\
6 Beech 10:00 wind down -> winding 10:02\n\
7 Beech 10:02 release down -> released\n\
8 Beech 10:02 turn down line_clear -> turned 5\n\
end\n",
    ),
    (
        "two trains on a permissive line",
        "journal 1\n\
1 Ash 10:00 bring t1 -> brought\n\
2 Beech 10:00 turn down line_clear -> turned 1\n\
3 Ash 10:00 await_block down line_clear -> seen 1\n\
4 Ash 10:00 pull 8 -> pulled_under 1\n\
5 Ash 10:00 pass 8 -> entered 1 t1\n\
6 Ash 10:00 put 8 -> put\n\
7 Ash 10:00 ring down 2 -> rung 1\n\
8 Ash 10:00 bring t2 -> brought\n\
9 Beech 10:00 await_bell up 2 -> heard 1 2\n\
10 Beech 10:00 turn down train_on_line -> turned 2\n\
11 Beech 10:00 turn down normal -> turned 3\n\
12 Beech 10:00 turn down line_clear -> turned 4\n\
13 Beech 10:00 ring up 1 -> rung 1\n\
14 Ash 10:00 await_bell down 1 -> heard 1 1\n\
15 Ash 10:00 pull 8 -> pulled_under 4\n\
16 Ash 10:00 pass 8 -> entered 2 t2\n\
end\n",
    ),
];

/// Of the same line, absolute, in seconds.
pub const ON_AN_ABSOLUTE_LINE_IN_SECONDS: [(&str, &str); 1] = [(
    "release counted in seconds",
    "journal 2\n\
1 Beech 10:00:00 turn down line_clear -> turned 1\n\
2 Beech 10:00:00 turn down normal -> turned 2\n\
3 Beech 10:00:00 wind down -> winding 10:02:00\n\
4 Beech 10:01:59 release down -> too_soon 10:02:00\n\
5 Beech 10:02:00 release down -> released\n\
end\n",
)];

/// Of the made line of three boxes.
pub const ON_A_MADE_LINE: [(&str, &str); 1] = [(
    "train through three boxes",
    "journal 1\n\
1 Ash 06:00 bring t1 -> brought\n\
2 Ash 06:00 ring down 1 -> rung 1\n\
3 Beech 06:00 await_bell up 1 -> heard 1 1\n\
4 Beech 06:00 ring up 1 -> rung 1\n\
5 Ash 06:00 await_bell down 1 -> heard 1 1\n\
6 Ash 06:00 ring down 3-1 -> rung 2\n\
7 Beech 06:00 await_bell up 3-1 -> heard 2 3-1\n\
8 Beech 06:00 ring up 3-1 -> rung 2\n\
9 Ash 06:00 await_bell down 3-1 -> heard 2 3-1\n\
10 Beech 06:00 turn down line_clear -> turned 1\n\
11 Ash 06:00 await_block down line_clear -> seen 1\n\
12 Ash 06:00 pull 2 -> pulled_under 1\n\
13 Ash 06:00 ring down 2 -> rung 3\n\
14 Beech 06:00 await_bell up 2 -> heard 3 2\n\
15 Beech 06:00 ring up 2 -> rung 3\n\
16 Ash 06:00 await_bell down 2 -> heard 3 2\n\
17 Ash 06:00 pass 2 -> entered 1 t1\n\
18 Ash 06:00 put 2 -> put\n\
19 Beech 06:00 turn down train_on_line -> turned 2\n\
20 Beech 06:00 await_train down -> approaching 1 t1\n\
21 Beech 06:00 berth down -> berthed 1 t1\n\
22 Beech 06:00 pull 1 -> pulled\n\
23 Beech 06:00 pass 1 -> passed t1\n\
24 Beech 06:00 put 1 -> put\n\
25 Beech 06:00 ring up 2-1 -> rung 4\n\
26 Ash 06:00 await_bell down 2-1 -> heard 4 2-1\n\
27 Ash 06:00 ring down 2-1 -> rung 4\n\
28 Beech 06:00 turn down normal -> turned 3\n\
29 Beech 06:00 await_bell up 2-1 -> heard 4 2-1\n\
30 Beech 06:00 ring down 1 -> rung 1\n\
31 Cedar 06:00 await_bell up 1 -> heard 1 1\n\
32 Cedar 06:00 ring up 1 -> rung 1\n\
33 Beech 06:00 await_bell down 1 -> heard 1 1\n\
34 Beech 06:00 ring down 3-1 -> rung 2\n\
35 Cedar 06:00 await_bell up 3-1 -> heard 2 3-1\n\
36 Cedar 06:00 ring up 3-1 -> rung 2\n\
37 Beech 06:00 await_bell down 3-1 -> heard 2 3-1\n\
38 Cedar 06:00 turn down line_clear -> turned 1\n\
39 Beech 06:00 await_block down line_clear -> seen 1\n\
40 Beech 06:00 pull 2 -> pulled_under 1\n\
41 Beech 06:00 ring down 2 -> rung 3\n\
42 Cedar 06:00 await_bell up 2 -> heard 3 2\n\
43 Cedar 06:00 ring up 2 -> rung 3\n\
44 Beech 06:00 await_bell down 2 -> heard 3 2\n\
45 Beech 06:00 pass 2 -> entered 1 t1\n\
46 Beech 06:00 put 2 -> put\n\
47 Cedar 06:00 turn down train_on_line -> turned 2\n\
48 Cedar 06:00 await_train down -> approaching 1 t1\n\
49 Cedar 06:00 berth down -> berthed 1 t1\n\
50 Cedar 06:00 pull 1 -> pulled\n\
51 Cedar 06:00 pass 1 -> passed t1\n\
52 Cedar 06:00 put 1 -> put\n\
53 Cedar 06:00 ring up 2-1 -> rung 4\n\
54 Beech 06:00 await_bell down 2-1 -> heard 4 2-1\n\
55 Beech 06:00 ring down 2-1 -> rung 4\n\
56 Cedar 06:00 turn down normal -> turned 3\n\
57 Cedar 06:00 await_bell up 2-1 -> heard 4 2-1\n\
58 Cedar 06:00 pull 2 -> pulled\n\
59 Cedar 06:00 pass 2 -> passed t1\n\
60 Cedar 06:00 put 2 -> put\n\
end\n",
)];

/// On a line of as many boxes as a line may have.
pub const ON_A_LONG_LINE: [(&str, &str); 1] = [("boxes without a call", "journal 2\nend\n")];
