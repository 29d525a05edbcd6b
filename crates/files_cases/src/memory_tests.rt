// Stores in memory, and lists of names.
use crate::rows::wrong_rows;
use std::test::Fail;

static ROWS: &str = "# memory files are read and noted
with app/A.class one = done
with app/B.class = done
with app/A.class two = done
read app/A.class = two
read app/C.class = none
read app/B.class =
read app/A.class = two
reads = app/A.class app/B.class app/A.class
# planned reads fail and no others do: the calls are the store's second to its seventh
after-a-failure = done
reads =
with app/A.class one = done
fail 6 2 = done
fail 3 2 = done
fail 18446744073709551615 2 = done
fail 1 2 = done
fail 0 2 = done
fail 6 2 = done
read app/A.class = one
read app/A.class = failed
read app/B.class = none
read app/B.class = none
read app/B.class = failed
read app/A.class = one
reads = app/A.class app/A.class
# a file in memory is stamped and not read
with d/x.class abc = done
digest d/x.class = abc
digest d/y.class = none
reads =
# class files in memory are listed
with d/x.class abc = done
with d/y.txt abc = done
with f/b.class abc = done
with f/a/z.class abc = done
with f/a.class abc = done
with f/B.class abc = done
with f/.class abc = done
with f/a/a/a.class abc = done
with f/é.class abc = done
with f/c.class.txt abc = done
with f/class abc = done
with f/a-.class abc = done
with ff/g.class abc = done
with f.class abc = done
with g/f/h.class abc = done
with /f/i.class abc = done
list d = x.class
list e =
list f = .class B.class a-.class a.class a/a/a.class a/z.class b.class é.class
list f/a = a/a.class z.class
list d/x.class =
reads =
# what is written in memory is read
with a old bytes = done
write a new = done
write b/c.class abc = done
read a = new
digest b/c.class = abc
list b = c.class
reads = a
# a planned write keeps a front
with a old = done
fail 1 0 = done
write a wxyz = failed
read a =
# another front
with a old = done
fail 1 1 = done
write a wxyz = failed
read a = w
# another front
with a old = done
fail 1 4 = done
write a wxyz = failed
read a = wxyz
# another front
with a old = done
fail 1 9 = done
write a wxyz = failed
read a = wxyz
# another front
with a old = done
fail 1 18446744073709551615 = done
write a wxyz = failed
read a = wxyz
# each call fails at its number
with d/x.class abc = done
fail 2 0 = done
fail 4 0 = done
fail 6 0 = done
fail 8 0 = done
read d/x.class = abc
read d/x.class = failed
list d = x.class
list d = failed
digest d/x.class = abc
digest d/x.class = failed
write e = done
write e = failed
write e = done
reads = d/x.class
# names are in the order of their pushes
no-names =
two-names = b a";

#[test]
fn stores_in_memory_hold_what_they_took_and_fail_where_planned(
    rt: HostRuntime,
) -> Result<(), Fail> {
    assert_eq!(rt; wrong_rows(rt.alloc(), ROWS)?.as_str(), "");
    Ok(())
}
