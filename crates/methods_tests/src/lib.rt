//! Lines that tell tasks and methods, and their rows, written down from the rules.
#![tactic(auto)]

use line::parse;
use page::{Answer, Row};
use semantics::Link;
use told_domain::Domain;

/// The four numbers of a row.
pub type Numbers = (u8, u64, u64, u64);

/// An answer as the numbers of its row.
pub fn numbers(answer: Answer) -> Numbers {
    let Row { code, a, b, c } = Row::from(answer);
    (code, a, b, c)
}

/// The answer to a line of the phases before the plan; the letters of the plan have no place there.
pub fn answer(domain: &mut Domain, line: &str) -> Answer {
    domain.carry_out(parse(line.as_bytes())?)
}

/// The row of a line, told to the domain.
pub fn told(domain: &mut Domain, line: &str) -> Numbers {
    numbers(answer(domain, line))
}

/// Tells some lines, and answers the place of the first whose row is not the one that stands beside it.
pub fn first_wrong(domain: &mut Domain, table: &[(&str, Numbers)]) -> Option<usize> {
    for (i, case) in table.iter().enumerate() {
        let (line, wanted) = *case;
        if told(domain, line) != wanted {
            return Some(i);
        }
    }
    None
}

/// Tells some lines, each of which gets the row `0,0,0,0`, and answers whether all did.
pub fn all_plain(domain: &mut Domain, lines: &[&str]) -> bool {
    for line in lines {
        if told(domain, *line) != (0, 0, 0, 0) {
            return false;
        }
    }
    true
}

/// The tasks of the yard's listing: 2 needs fact 0 and adds 1, 3 needs 1 and adds 2, and the compound 4 needs 0 and adds 2.
pub fn yard() -> Domain {
    let mut domain = Domain::open();
    let _ = told(&mut domain, "P");
    let _ = told(&mut domain, "P");
    let _ = told(&mut domain, "C");
    let _ = all_plain(
        &mut domain,
        &["N,2,0", "A,2,1", "N,3,1", "A,3,2", "N,4,0", "A,4,2"],
    );
    domain
}

/// The yard with an open method of the steps weigh empty (0) and weigh full (1).
pub fn open_yard() -> Domain {
    let mut domain = yard();
    let _ = all_plain(&mut domain, &["E", "M,4", "S,2"]);
    let _ = told(&mut domain, "S,3");
    domain
}

/// An open method whose steps 0, 1 and 2 each need fact 0 and add fact 0, and are primitive; its task 3 has no facts.
pub fn open_ring() -> Domain {
    let mut domain = Domain::open();
    let _ = told(&mut domain, "P");
    let _ = told(&mut domain, "C");
    let _ = all_plain(&mut domain, &["N,2,0", "A,2,0", "E", "M,3", "S,2"]);
    let _ = told(&mut domain, "S,2");
    let _ = told(&mut domain, "S,2");
    domain
}

/// Links step 0 to step 1 by 4 adds and 4 needs, each with each, and answers whether all 16 were accepted.
pub fn sixteen_links(domain: &mut Domain) -> bool {
    for n in 0..16u8 {
        let link = Link {
            producer: 0,
            add: n / 4,
            consumer: 1,
            need: n % 4,
        };
        if numbers(domain.put_link(link)) != (0, 0, 0, 0) {
            return false;
        }
    }
    true
}

#[cfg(test)]
mod tests {
    use super::*;

    #[test]
    fn needs_and_adds(rt: HostRuntime) {
        let mut d = Domain::open();
        assert_eq!(rt;
            first_wrong(
                &mut d,
                &[
                    ("P", (0, 2, 0, 0)),
                    ("C", (0, 3, 0, 0)),
                    ("N,4,0", (6, 1, 0, 0)),
                    ("N,2,64", (6, 2, 0, 0)),
                    ("N,4,64", (6, 1, 0, 0)),
                    ("N,0,0", (7, 0, 0, 0)),
                    ("N,2,63", (0, 0, 0, 0)),
                    ("N,2,63", (0, 1, 0, 0)),
                    ("N,1,0", (0, 0, 0, 0)),
                    ("A,4,0", (6, 1, 0, 0)),
                    ("A,2,64", (6, 2, 0, 0)),
                    ("A,1,0", (7, 0, 0, 0)),
                    ("A,0,63", (0, 0, 0, 0)),
                ],
            ),
            None
        );
    }

    #[test]
    fn deletes(rt: HostRuntime) {
        let mut d = yard();
        assert_eq!(rt;
            first_wrong(
                &mut d,
                &[
                    ("D,5,0", (6, 1, 0, 0)),
                    ("D,2,64", (6, 2, 0, 0)),
                    ("D,0,0", (7, 0, 0, 0)),
                    ("D,1,0", (7, 0, 0, 0)),
                    ("D,4,0", (7, 0, 0, 0)),
                    ("D,0,64", (6, 2, 0, 0)),
                    ("D,2,63", (0, 0, 0, 0)),
                    ("D,2,0", (0, 1, 0, 0)),
                    ("E", (0, 0, 0, 0)),
                    ("D,2,0", (5, 0, 0, 0)),
                    ("D,9,99", (5, 0, 0, 0)),
                ],
            ),
            None
        );
    }

    #[test]
    fn letters_after_their_phase(rt: HostRuntime) {
        let mut d = yard();
        assert_eq!(rt;
            first_wrong(
                &mut d,
                &[
                    ("E", (0, 0, 0, 0)),
                    ("P", (5, 0, 0, 0)),
                    ("C", (5, 0, 0, 0)),
                    ("N,2,0", (5, 0, 0, 0)),
                    ("A,2,0", (5, 0, 0, 0)),
                    ("S,2", (5, 0, 0, 0)),
                    ("O,0,1", (5, 0, 0, 0)),
                    ("L,0,0,1,0", (5, 0, 0, 0)),
                    ("U,0,0,0", (5, 0, 0, 0)),
                    ("V,0,0,0", (5, 0, 0, 0)),
                    ("E", (0, 0, 0, 0)),
                    ("M,4", (5, 0, 0, 0)),
                    ("E", (0, 0, 0, 0)),
                    ("E", (5, 0, 0, 0)),
                    ("K", (5, 0, 0, 0)),
                ],
            ),
            None
        );
    }

    #[test]
    fn the_32nd_and_33rd_task(rt: HostRuntime) {
        let mut d = Domain::open();
        for n in 2..32u64 {
            assert_eq!(rt; told(&mut d, "P"), (0, n, 0, 0));
        }
        assert_eq!(rt;
            first_wrong(
                &mut d,
                &[
                    ("P", (10, 0, 0, 0)),
                    ("C", (10, 0, 0, 0)),
                    ("N,31,0", (0, 0, 0, 0)),
                    ("N,32,0", (6, 1, 0, 0)),
                ],
            ),
            None
        );
    }

    #[test]
    fn the_32nd_and_33rd_entry(rt: HostRuntime) {
        let mut d = yard();
        for n in 1..32u64 {
            assert_eq!(rt; told(&mut d, "N,2,63"), (0, n, 0, 0));
        }
        for m in 1..32u64 {
            assert_eq!(rt; told(&mut d, "A,2,63"), (0, m, 0, 0));
        }
        for k in 0..32u64 {
            assert_eq!(rt; told(&mut d, "D,2,63"), (0, k, 0, 0));
        }
        assert_eq!(rt;
            first_wrong(
                &mut d,
                &[
                    ("N,2,0", (10, 0, 0, 0)),
                    ("A,2,0", (10, 0, 0, 0)),
                    ("D,2,0", (10, 0, 0, 0)),
                    ("N,2,64", (6, 2, 0, 0)),
                ],
            ),
            None
        );
    }

    #[test]
    fn opening_a_method(rt: HostRuntime) {
        let mut d = yard();
        assert_eq!(rt;
            first_wrong(
                &mut d,
                &[
                    ("M,4", (5, 0, 0, 0)),
                    ("E", (0, 0, 0, 0)),
                    ("M,5", (6, 1, 0, 0)),
                    ("M,0", (7, 0, 0, 0)),
                    ("M,2", (7, 0, 0, 0)),
                    ("M,4", (0, 0, 0, 0)),
                    ("M,4", (5, 0, 0, 0)),
                    ("E", (5, 0, 0, 0)),
                ],
            ),
            None
        );
    }

    #[test]
    fn the_32nd_and_33rd_method(rt: HostRuntime) {
        let mut d = Domain::open();
        assert_eq!(rt;
            first_wrong(&mut d, &[("C", (0, 2, 0, 0)), ("E", (0, 0, 0, 0))]),
            None
        );
        for n in 0..32u64 {
            assert_eq!(rt; told(&mut d, "M,2"), (0, n, 0, 0));
            assert_eq!(rt; told(&mut d, "K"), (0, 0, 0, 0));
        }
        assert_eq!(rt;
            first_wrong(
                &mut d,
                &[
                    ("M,2", (10, 0, 0, 0)),
                    ("M,0", (7, 0, 0, 0)),
                    ("M,3", (6, 1, 0, 0)),
                ],
            ),
            None
        );
    }

    #[test]
    fn the_8th_and_9th_step(rt: HostRuntime) {
        let mut d = yard();
        assert_eq!(rt; told(&mut d, "S,2"), (5, 0, 0, 0));
        assert!(rt; all_plain(&mut d, &["E", "M,4"]));
        assert_eq!(rt;
            first_wrong(
                &mut d,
                &[
                    ("S,5", (6, 1, 0, 0)),
                    ("S,0", (7, 0, 0, 0)),
                    ("S,1", (7, 0, 0, 0)),
                ],
            ),
            None
        );
        for n in 0..8u64 {
            assert_eq!(rt; told(&mut d, "S,4"), (0, n, 0, 0));
        }
        assert_eq!(rt;
            first_wrong(
                &mut d,
                &[
                    ("S,4", (10, 0, 0, 0)),
                    ("S,0", (7, 0, 0, 0)),
                    ("O,0,7", (0, 0, 0, 0)),
                    ("O,0,8", (6, 2, 0, 0)),
                ],
            ),
            None
        );
    }

    #[test]
    fn order(rt: HostRuntime) {
        let mut d = open_ring();
        assert_eq!(rt;
            first_wrong(
                &mut d,
                &[
                    ("O,3,0", (6, 1, 0, 0)),
                    ("O,0,3", (6, 2, 0, 0)),
                    ("O,9,9", (6, 1, 0, 0)),
                    ("O,0,0", (11, 0, 0, 0)),
                    ("O,0,1", (0, 0, 0, 0)),
                    ("O,0,1", (0, 0, 0, 0)),
                    ("O,1,0", (11, 0, 0, 0)),
                    ("O,1,2", (0, 0, 0, 0)),
                    ("O,2,0", (11, 0, 0, 0)),
                    ("O,0,2", (0, 0, 0, 0)),
                ],
            ),
            None
        );
        assert_eq!(rt; told(&mut yard(), "O,0,1"), (5, 0, 0, 0));
    }

    #[test]
    fn links(rt: HostRuntime) {
        let mut d = open_yard();
        assert_eq!(rt;
            first_wrong(
                &mut d,
                &[
                    ("L,2,0,1,0", (6, 1, 0, 0)),
                    ("L,0,1,1,0", (6, 2, 0, 0)),
                    ("L,0,1,9,9", (6, 2, 0, 0)),
                    ("L,0,0,2,0", (6, 3, 0, 0)),
                    ("L,0,0,1,1", (6, 4, 0, 0)),
                    ("L,1,0,0,0", (9, 0, 0, 0)),
                    ("L,0,0,1,0", (0, 0, 0, 0)),
                    ("L,0,0,1,0", (0, 0, 0, 0)),
                    ("O,1,0", (11, 0, 0, 0)),
                    ("O,0,1", (0, 0, 0, 0)),
                ],
            ),
            None
        );
        assert_eq!(rt; told(&mut yard(), "L,0,0,1,0"), (5, 0, 0, 0));
    }

    #[test]
    fn circles_through_links_alone(rt: HostRuntime) {
        let mut d = open_ring();
        assert_eq!(rt;
            first_wrong(
                &mut d,
                &[
                    ("L,0,0,0,0", (11, 0, 0, 0)),
                    ("L,0,0,1,0", (0, 0, 0, 0)),
                    ("L,1,0,2,0", (0, 0, 0, 0)),
                    ("L,2,0,0,0", (11, 0, 0, 0)),
                    ("L,1,0,0,0", (11, 0, 0, 0)),
                    ("L,0,0,2,0", (0, 0, 0, 0)),
                    ("K", (0, 0, 0, 0)),
                ],
            ),
            None
        );
    }

    #[test]
    fn compound_ends_put_no_order(rt: HostRuntime) {
        let mut d = Domain::open();
        assert_eq!(rt; told(&mut d, "C"), (0, 2, 0, 0));
        assert!(rt; all_plain(&mut d, &["N,2,0", "A,2,0", "E", "M,2", "S,2"]));
        assert_eq!(rt;
            first_wrong(
                &mut d,
                &[
                    ("S,2", (0, 1, 0, 0)),
                    ("L,0,0,0,0", (11, 0, 0, 0)),
                    ("L,0,0,1,0", (0, 0, 0, 0)),
                    ("L,1,0,0,0", (0, 0, 0, 0)),
                    ("O,1,0", (0, 0, 0, 0)),
                    ("O,0,1", (11, 0, 0, 0)),
                ],
            ),
            None
        );
    }

    #[test]
    fn the_16th_and_17th_link(rt: HostRuntime) {
        let mut d = Domain::open();
        assert_eq!(rt;
            first_wrong(&mut d, &[("P", (0, 2, 0, 0)), ("C", (0, 3, 0, 0))]),
            None
        );
        for n in 0..5u64 {
            assert_eq!(rt; told(&mut d, "N,2,0"), (0, n, 0, 0));
            assert_eq!(rt; told(&mut d, "A,2,0"), (0, n, 0, 0));
        }
        assert!(rt; all_plain(&mut d, &["E", "M,3", "S,2"]));
        assert_eq!(rt; told(&mut d, "S,2"), (0, 1, 0, 0));
        assert!(rt; sixteen_links(&mut d));
        assert_eq!(rt;
            first_wrong(
                &mut d,
                &[
                    ("L,0,4,1,0", (10, 0, 0, 0)),
                    ("L,0,0,1,0", (0, 0, 0, 0)),
                    ("L,0,3,1,3", (0, 0, 0, 0)),
                    ("L,1,0,0,0", (10, 0, 0, 0)),
                    ("L,0,0,0,0", (10, 0, 0, 0)),
                    ("L,0,5,1,0", (6, 2, 0, 0)),
                ],
            ),
            None
        );
    }

    #[test]
    fn entries_of_needs(rt: HostRuntime) {
        let mut d = open_yard();
        assert_eq!(rt;
            first_wrong(
                &mut d,
                &[
                    ("U,1,0,0", (6, 1, 0, 0)),
                    ("U,0,2,0", (6, 2, 0, 0)),
                    ("U,0,0,1", (6, 3, 0, 0)),
                    ("U,1,9,9", (6, 1, 0, 0)),
                    ("U,0,1,0", (9, 0, 0, 0)),
                    ("U,0,0,0", (0, 0, 0, 0)),
                    ("U,0,0,0", (8, 0, 0, 0)),
                    ("U,0,1,0", (8, 0, 0, 0)),
                    ("K", (12, 1, 0, 0)),
                ],
            ),
            None
        );
        assert_eq!(rt; told(&mut yard(), "U,0,0,0"), (5, 0, 0, 0));
    }

    #[test]
    fn entries_of_adds(rt: HostRuntime) {
        let mut d = open_yard();
        assert_eq!(rt;
            first_wrong(
                &mut d,
                &[
                    ("V,1,0,0", (6, 1, 0, 0)),
                    ("V,0,2,0", (6, 2, 0, 0)),
                    ("V,0,0,1", (6, 3, 0, 0)),
                    ("V,1,9,9", (6, 1, 0, 0)),
                    ("V,0,0,0", (9, 0, 0, 0)),
                    ("V,0,1,0", (0, 0, 0, 0)),
                    ("V,0,1,0", (8, 0, 0, 0)),
                    ("V,0,0,0", (8, 0, 0, 0)),
                    ("K", (12, 0, 0, 0)),
                ],
            ),
            None
        );
        assert_eq!(rt; told(&mut yard(), "V,0,0,0"), (5, 0, 0, 0));
    }

    #[test]
    fn closing(rt: HostRuntime) {
        let mut d = yard();
        assert_eq!(rt;
            first_wrong(
                &mut d,
                &[
                    ("N,4,0", (0, 1, 0, 0)),
                    ("A,4,2", (0, 1, 0, 0)),
                    ("E", (0, 0, 0, 0)),
                    ("K", (5, 0, 0, 0)),
                    ("M,4", (0, 0, 0, 0)),
                    ("S,2", (0, 0, 0, 0)),
                    ("S,3", (0, 1, 0, 0)),
                    ("K", (12, 0, 0, 0)),
                    ("U,0,0,0", (0, 0, 0, 0)),
                    ("K", (12, 0, 1, 0)),
                    ("U,1,0,0", (0, 0, 0, 0)),
                    ("K", (12, 1, 0, 0)),
                    ("V,0,1,0", (0, 0, 0, 0)),
                    ("K", (12, 1, 1, 0)),
                    ("V,1,1,0", (0, 0, 0, 0)),
                    ("K", (0, 0, 0, 0)),
                    ("K", (5, 0, 0, 0)),
                    ("M,4", (0, 1, 0, 0)),
                ],
            ),
            None
        );
    }

    #[test]
    fn the_yard_listing(rt: HostRuntime) {
        let mut d = Domain::open();
        assert_eq!(rt;
            first_wrong(
                &mut d,
                &[
                    ("P", (0, 2, 0, 0)),
                    ("P", (0, 3, 0, 0)),
                    ("C", (0, 4, 0, 0)),
                ],
            ),
            None
        );
        assert!(rt;
            all_plain(
                &mut d,
                &[
                    "A,0,0", "N,1,2", "N,2,0", "A,2,1", "N,3,1", "A,3,2", "N,4,0", "A,4,2", "E",
                ],
            )
        );
        assert_eq!(rt;
            first_wrong(
                &mut d,
                &[
                    ("M,4", (0, 0, 0, 0)),
                    ("S,2", (0, 0, 0, 0)),
                    ("S,3", (0, 1, 0, 0)),
                    ("L,0,0,1,0", (0, 0, 0, 0)),
                    ("U,0,0,0", (0, 0, 0, 0)),
                    ("V,0,1,0", (0, 0, 0, 0)),
                    ("O,1,0", (11, 0, 0, 0)),
                    ("K", (0, 0, 0, 0)),
                    ("E", (0, 0, 0, 0)),
                ],
            ),
            None
        );
    }
}
