// Sinks in memory and over std.
use crate::sink_rows::wrong_rows;
use std::test::Fail;

static ROWS: &str = "# a sink in memory takes all
put ab = done
put = done
put c = done
bytes = abc
# a planned put keeps a front
fail 2 0 = done
put ab = done
put wxyz = failed
put c = done
bytes = abc
# another front
fail 2 1 = done
put ab = done
put wxyz = failed
put c = done
bytes = abwc
# another front
fail 2 4 = done
put ab = done
put wxyz = failed
put c = done
bytes = abwxyzc
# another front
fail 2 9 = done
put ab = done
put wxyz = failed
put c = done
bytes = abwxyzc
# another front
fail 2 18446744073709551615 = done
put ab = done
put wxyz = failed
put c = done
bytes = abwxyzc
# the later plan of a put counts
fail 3 0 = done
fail 1 2 = done
fail 3 1 = done
put abc = failed
fail 1 0 = done
put d = done
put ef = failed
put g = done
bytes = abdeg
# a sink over std writes all
std ab,,c = done abc
# a writer that fails leaves a front: how much it takes at a time and in all, then its error
narrow 3 100 BrokenPipe = done abcdefgh
narrow 3 5 BrokenPipe = failed abcde
narrow 3 5 Interrupted = failed abcde
narrow 3 5 OutOfMemory = memory abcde
narrow 0 5 BrokenPipe = failed
# all is taken, and the flush fails
narrow 3 8 BrokenPipe = failed abcdefgh";

#[test]
fn sinks_take_all_or_a_front_where_they_fail(rt: HostRuntime) -> Result<(), Fail> {
    assert_eq!(rt; wrong_rows(rt.alloc(), ROWS)?.as_str(), "");
    Ok(())
}
