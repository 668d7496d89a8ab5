//! The plans of the tests.

// Two boxes with bells alone, with how many looks an await has.
macro_rules! bells {
    ($looks:literal) => {
        concat!(
            "plan 1\nboxes 2\ndelay 2\nlooks ",
            $looks,
            "\nbox Ash\nbox Beech\nend\n"
        )
    };
}

/// Two boxes with bells alone.
pub const BELLS: &str = bells!("1000000000");

/// The same where an await looks once.
pub const BELLS_WITH_ONE_LOOK: &str = bells!("1");

/// The same with moments in seconds.
pub const BELLS_IN_SECONDS: &str =
    "plan 2\nboxes 2\ndelay 120\nlooks 1000000000\nbox Ash\nbox Beech\nend\n";

/// Three boxes with bells alone.
pub const BELLS_OF_THREE_BOXES: &str =
    "plan 1\nboxes 3\ndelay 2\nlooks 1000000000\nbox Ash\nbox Beech\nbox Cedar\nend\n";

// A frame with its locking and a starter at Ash, a home signal and a berth at Beech, a section on the down line with
// what a line says of it, and six trains.
macro_rules! two_boxes {
    ($head:literal, $section:literal) => {
        concat!(
            $head,
            "looks 1000000000\n\
box Ash\nplace P\nplace Q\nlever 1 signal\nlever 2 signal\nlever 3 points\nlever 4 points\n\
lever 5 points\nlever 6 points\nlever 7 spare\nlever 8 signal\nstarter down 8 P\ntrack 3 Q\n\
row 2 locks 5 normal\nrow 3 locks 4 both ways\nrow 1 locks 2 normal when 6 reversed\n\
box Beech\nplace B\nplace M\nlever 1 signal\nsignal 1 B M\nberth down B\nclear down M\n",
            $section,
            "train t1 ordinary Ash P\ntrain t2 express Ash P\ntrain t3 light Ash Q\n\
train t4 empty Ash P\ntrain t5 light Ash P\ntrain t6 ordinary Ash P\nend\n"
        )
    };
}

/// Two boxes and six trains, with an absolute line.
pub const ABSOLUTE: &str = two_boxes!("plan 1\nboxes 2\ndelay 2\n", "");

/// The same with moments in seconds.
pub const ABSOLUTE_IN_SECONDS: &str = two_boxes!("plan 2\nboxes 2\ndelay 120\n", "");

/// The same with a permissive line of two.
pub const PERMISSIVE: &str = two_boxes!("plan 1\nboxes 2\ndelay 2\n", "permissive down 2\n");

/// As many boxes as a line may have.
pub const LONG_LINE: &str = "plan 2\nboxes 64\ndelay 3600\nlooks 1000000000\n\
box B0\nbox B1\nbox B2\nbox B3\nbox B4\nbox B5\nbox B6\nbox B7\nbox B8\nbox B9\nbox B10\n\
box B11\nbox B12\nbox B13\nbox B14\nbox B15\nbox B16\nbox B17\nbox B18\nbox B19\nbox B20\n\
box B21\nbox B22\nbox B23\nbox B24\nbox B25\nbox B26\nbox B27\nbox B28\nbox B29\nbox B30\n\
box B31\nbox B32\nbox B33\nbox B34\nbox B35\nbox B36\nbox B37\nbox B38\nbox B39\nbox B40\n\
box B41\nbox B42\nbox B43\nbox B44\nbox B45\nbox B46\nbox B47\nbox B48\nbox B49\nbox B50\n\
box B51\nbox B52\nbox B53\nbox B54\nbox B55\nbox B56\nbox B57\nbox B58\nbox B59\nbox B60\n\
box B61\nbox B62\nbox B63\n\
end\n";
