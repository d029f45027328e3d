//! Lines, what they are read as, and the rows of those that are turned down, written down from the rules.
#![tactic(auto)]

use line::{Command, parse};
use page::{Answer, Refusal, Row, line_at, write};

/// The code and the number a of a line that is turned down before the checker is asked; `(0, 0)` for any other.
pub fn refusal(line: &[u8]) -> (u8, u64) {
    match parse(line) {
        Ok(_) => (0, 0),
        Err(cause) => {
            let row = Row::from(Refusal::from(cause));
            (row.code, row.a)
        }
    }
}

#[cfg(test)]
mod tests {
    use super::*;
    use std::test::Fail;

    #[test]
    fn every_letter(rt: HostRuntime) {
        assert_eq!(rt; parse(b"P"), Ok(Command::NewPrimitive));
        assert_eq!(rt; parse(b"C"), Ok(Command::NewCompound));
        assert_eq!(rt;
            parse(b"N,2,63"),
            Ok(Command::AppendNeed { task: 2, fact: 63 })
        );
        assert_eq!(rt;
            parse(b"A,0,64"),
            Ok(Command::AppendAdd { task: 0, fact: 64 })
        );
        assert_eq!(rt;
            parse(b"D,31,0"),
            Ok(Command::AppendDelete { task: 31, fact: 0 })
        );
        assert_eq!(rt; parse(b"E"), Ok(Command::EndPhase));
        assert_eq!(rt; parse(b"M,4"), Ok(Command::OpenMethod { task: 4 }));
        assert_eq!(rt; parse(b"S,255"), Ok(Command::NewStep { task: 255 }));
        assert_eq!(rt;
            parse(b"O,3,4"),
            Ok(Command::PutOrder {
                earlier: 3,
                later: 4,
            })
        );
        assert_eq!(rt;
            parse(b"L,0,1,2,3"),
            Ok(Command::PutLink {
                producer: 0,
                add: 1,
                consumer: 2,
                need: 3,
            })
        );
        assert_eq!(rt;
            parse(b"U,5,6,7"),
            Ok(Command::RouteNeed {
                need: 5,
                step: 6,
                label: 7,
            })
        );
        assert_eq!(rt;
            parse(b"V,7,6,5"),
            Ok(Command::RouteAdd {
                add: 7,
                step: 6,
                label: 5,
            })
        );
        assert_eq!(rt; parse(b"K"), Ok(Command::CloseMethod));
        assert_eq!(rt;
            parse(b"X,2,0"),
            Ok(Command::Decompose { step: 2, method: 0 })
        );
        assert_eq!(rt; parse(b"J"), Ok(Command::Judge));
        assert_eq!(rt; parse(b"R,10"), Ok(Command::Take { step: 10 }));
    }

    #[test]
    fn bytes_that_no_line_holds(rt: HostRuntime) {
        assert_eq!(rt; refusal(b"P\x1f"), (1, 1));
        assert_eq!(rt; refusal(b"\x7f"), (1, 0));
        assert_eq!(rt; refusal(b"N,2,\"3\""), (1, 4));
        assert_eq!(rt; refusal(b"\x00"), (1, 0));
        assert_eq!(rt; refusal(b"J\x00"), (1, 1));
        assert_eq!(rt; refusal(b"N,2,63\r"), (1, 6));
        assert_eq!(rt; refusal(b"\tP"), (1, 0));
        assert_eq!(rt; refusal(b"q,\x80,\xff"), (1, 2));
        assert_eq!(rt; refusal(b"X,2,0\n"), (1, 5));
    }

    #[test]
    fn first_fields_that_are_no_letter(rt: HostRuntime) {
        assert_eq!(rt; refusal(b""), (2, 0));
        assert_eq!(rt; refusal(b","), (2, 0));
        assert_eq!(rt; refusal(b",2,3"), (2, 0));
        assert_eq!(rt; refusal(b"p"), (2, 0));
        assert_eq!(rt; refusal(b"n,2,63"), (2, 0));
        assert_eq!(rt; refusal(b"PP"), (2, 0));
        assert_eq!(rt; refusal(b"NN,2,1"), (2, 0));
        assert_eq!(rt; refusal(b"G"), (2, 0));
        assert_eq!(rt; refusal(b" P"), (2, 0));
        assert_eq!(rt; refusal(b"P "), (2, 0));
        assert_eq!(rt; refusal(b"1"), (2, 0));
        assert_eq!(rt; refusal(b"Q,x,,y"), (2, 0));
        assert_eq!(rt; refusal(b"~"), (2, 0));
    }

    #[test]
    fn counts_of_fields(rt: HostRuntime) {
        assert_eq!(rt; refusal(b"P,1"), (3, 2));
        assert_eq!(rt; refusal(b"J,"), (3, 2));
        assert_eq!(rt; refusal(b"N"), (3, 1));
        assert_eq!(rt; refusal(b"N,2"), (3, 2));
        assert_eq!(rt; refusal(b"N,2,3,4"), (3, 4));
        assert_eq!(rt; refusal(b"L,0,0,1"), (3, 4));
        assert_eq!(rt; refusal(b"L,0,0,1,0,0"), (3, 6));
        assert_eq!(rt; refusal(b"E,,,,"), (3, 5));
        assert_eq!(rt; refusal(b"R"), (3, 1));
        assert_eq!(rt; refusal(b"U,1,2"), (3, 3));
        assert_eq!(rt; refusal(b"K,x"), (3, 2));
        assert_eq!(rt; refusal(b"M,07,x"), (3, 3));
    }

    #[test]
    fn fields_that_are_no_number(rt: HostRuntime) {
        assert_eq!(rt; refusal(b"N,2,64"), (0, 0));
        assert_eq!(rt; refusal(b"N,2,255"), (0, 0));
        assert_eq!(rt; refusal(b"N,2,256"), (4, 2));
        assert_eq!(rt; refusal(b"N,2,07"), (4, 2));
        assert_eq!(rt; refusal(b"N,2,00"), (4, 2));
        assert_eq!(rt; refusal(b"N,2,"), (4, 2));
        assert_eq!(rt; refusal(b"N,,2"), (4, 1));
        assert_eq!(rt; refusal(b"N,+1,2"), (4, 1));
        assert_eq!(rt; refusal(b"N,-0,2"), (4, 1));
        assert_eq!(rt; refusal(b"N, 2,3"), (4, 1));
        assert_eq!(rt; refusal(b"N,2,3 "), (4, 2));
        assert_eq!(rt; refusal(b"N,0x1,x"), (4, 1));
        assert_eq!(rt; refusal(b"L,0,0,1,1000"), (4, 4));
        assert_eq!(rt; refusal(b"L,0,260,x,0"), (4, 2));
        assert_eq!(rt; refusal(b"R,0255"), (4, 1));
        assert_eq!(rt; refusal(b"R,999"), (4, 1));
        assert_eq!(rt; refusal(b"R,1e1"), (4, 1));
        assert_eq!(rt; refusal(b"R,300"), (4, 1));
    }

    #[test]
    fn long_lines(rt: HostRuntime) {
        let mut line = [b'1'; 10000];
        assert_eq!(rt; refusal(&line), (2, 0));
        line[0] = b'R';
        line[1] = b',';
        assert_eq!(rt; refusal(&line), (4, 1));
        line[9999] = b',';
        assert_eq!(rt; refusal(&line), (3, 3));
        line[9998] = b'"';
        assert_eq!(rt; refusal(&line), (1, 9998));
    }

    // each line by its first place, the place of its end, and the place after its break
    #[test]
    fn lines_of_a_text(rt: HostRuntime) -> Result<(), Fail> {
        let text = b"P\r\n\n\r\r\nE\rK\n\r";
        let places = [(0, 1, 3), (3, 3, 4), (4, 5, 7), (7, 10, 11), (11, 12, 12)];
        for (at, end, next) in places {
            match line_at(text, at) {
                Some(line) => {
                    assert_eq!(rt; line.text.len() + at, end);
                    assert_eq!(rt; line.next, next);
                }
                None => return Err(Fail::new("a line is missing")),
            }
        }
        assert!(rt; line_at(text, 12).is_none());
        assert!(rt; line_at(text, 13).is_none());
        assert!(rt; line_at(b"", 0).is_none());
        Ok(())
    }

    #[test]
    fn rows_on_a_page(rt: HostRuntime) {
        let mut page = [b'.'; 60];
        let most: Answer = Ok(u64::MAX);
        assert_eq!(rt; write(most, &mut page, 33), None);
        assert_eq!(rt; write(most, &mut page, 61), None);
        assert!(rt; page == [b'.'; 60]);
        assert_eq!(rt; write(most, &mut page, 32), Some(60));
        let threat = Err(Refusal::Threatened {
            threat: 3,
            producer: 14,
            consumer: 5,
        });
        assert_eq!(rt; write(threat, &mut page, 2), Some(13));
        assert!(rt; &page[0..32] == b"..16,3,14,5\r\n...................".as_slice());
        assert!(rt; &page[32..60] == b"0,18446744073709551615,0,0\r\n".as_slice());
    }
}
