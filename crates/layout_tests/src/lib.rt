//! Tests of `layout`, `fields` and `headers`, with expectations worked out by hand from docs/RULES.md.
#![tactic(auto)]

#[cfg(test)]
mod tests {
    use fields::{Body, Field, Next, Tag, next_field, read_body};
    use headers::{
        Application, Direction, Span, UserBlock, UserHeader, is_basic_header, is_trailer,
        read_application, read_user_header,
    };
    use layout::{Layout, lay_out};
    use mt_text::{Fault, part};
    use std::test::Fail;

    // Blocks 1 and 2 of an input text, and two fields from 55 on: 74 bytes.
    fn order() -> &'static [u8] {
        b"{1:F01ABCDMK22AXXX0001000001}{2:I202NBRMMK2AAXXXN}{4:\r\n:20:T1\r\n:32A:1,\r\n-}"
    }

    // The fields of block 4 alone, from its first line on, and something behind it: contents of three
    // lines, of none, and one that begins with a colon.
    fn lines() -> &'static [u8] {
        b":70:A\r\n\r\nB\r\n:20:\r\n:21::C\r\n-}D"
    }

    fn tag(tens: u8, units: u8, letter: Option<u8>) -> Tag {
        Tag {
            tens,
            units,
            letter,
        }
    }

    fn span(at: usize, len: usize) -> Option<Span> {
        Some(Span { at, len })
    }

    #[test]
    fn an_input_text(rt: HostRuntime) {
        let layout = Layout {
            direction: Direction::Input,
            message_type: 202,
            headers_end: 50,
            user: None,
            body: 55,
            fields: 2,
            hyphen: 72,
        };
        assert_eq!(rt; lay_out(order()), Ok(layout));
    }

    #[test]
    fn an_output_text(rt: HostRuntime) {
        let layout = Layout {
            direction: Direction::Output,
            message_type: 950,
            headers_end: 80,
            user: None,
            body: 85,
            fields: 0,
            hyphen: 85,
        };
        let text =
            b"{1:F01ABCDMK22AXXX0001000001}{2:O9500930260105NBRMMK2AAXXX00010000012601050931N}{4:\r\n-}{5:{CHK:0123456789AB}}";
        assert_eq!(rt; lay_out(text), Ok(layout));
    }

    #[test]
    fn block_3_in_order(rt: HostRuntime) -> Result<(), Fail> {
        let text =
            b"{1:F01ABCDMK22AXXX0001000001}{2:I103NBRMMK2AAXXXN}{3:{108:T1}{111:001}{113:0056}{121:01234567-89ab-cdef-0123-456789abcdef}}{4:\r\n-}";
        let layout = lay_out(text)?;
        let user = UserHeader {
            user_reference: span(58, 2),
            service_type: span(66, 3),
            priority: span(75, 4),
            tracking: span(85, 36),
        };
        assert_eq!(rt; layout.user, Some(user));
        assert_eq!(rt; layout.headers_end, 50);
        assert_eq!(rt; layout.body, 128);
        assert_eq!(rt; layout.hyphen, 128);
        Ok(())
    }

    #[test]
    fn block_3_out_of_order(rt: HostRuntime) -> Result<(), Fail> {
        let text =
            b"{1:F01ABCDMK22AXXX0001000001}{2:O9500930260105NBRMMK2AAXXX00010000012601050931N}{3:{121:01234567-89ab-cdef-0123-456789abcdef}{113:nnnn}{111:001}{108:A}}{4:\r\n:20:A\r\n-}";
        let layout = lay_out(text)?;
        let user = UserHeader {
            user_reference: span(149, 1),
            service_type: span(140, 3),
            priority: span(130, 4),
            tracking: span(88, 36),
        };
        assert_eq!(rt; layout.user, Some(user));
        assert_eq!(rt; layout.headers_end, 80);
        assert_eq!(rt; layout.body, 157);
        assert_eq!(rt; layout.fields, 1);
        assert_eq!(rt; layout.hyphen, 164);
        Ok(())
    }

    #[test]
    fn block_3_with_one_item(rt: HostRuntime) {
        let block = UserBlock {
            header: UserHeader {
                user_reference: None,
                service_type: None,
                priority: span(8, 4),
                tracking: None,
            },
            end: 14,
        };
        let text = b"{3:{113:0056}}{4:";
        assert_eq!(rt; read_user_header(text, 0), Some(block));
        assert_eq!(rt; read_user_header(text, 1), None);
        assert_eq!(rt; read_user_header(text, 14), None);
        assert_eq!(rt; read_user_header(b"{3:{113:0056}", 0), None);
        assert_eq!(rt; read_user_header(b"{3:}", 0), None);
    }

    #[test]
    fn directions_are_printed(rt: HostRuntime) -> Result<(), Fail> {
        let alloc = rt.alloc();
        assert_eq!(rt; Direction::Input.to_string(alloc)?.as_str(), "input");
        assert_eq!(rt; Direction::Output.to_string(alloc)?.as_str(), "output");
        Ok(())
    }

    #[test]
    fn headers_and_the_trailer(rt: HostRuntime) {
        let application = Application {
            direction: Direction::Input,
            message_type: 7,
            width: 21,
        };
        assert_eq!(rt;
            read_application(b"{2:I007NBRMMK2AAXXXU}{4:"),
            Some(application)
        );
        assert_eq!(rt; read_application(b"{2:I007NBRMMK2AAXXXU"), None);
        assert_eq!(rt; read_application(b""), None);
        assert!(rt; is_basic_header(b"{1:F01ABCDMK22AXXX0001000001}"));
        assert!(rt; !is_basic_header(b"{1:F01ABCDMK22AXXX0001000001}{"));
        assert!(rt; !is_basic_header(b""));
        assert!(rt; is_trailer(b"{5:{CHK:0123456789AB}}"));
        assert!(rt; !is_trailer(b"{5:{CHK:0123456789AB}}}"));
        assert!(rt; !is_trailer(b""));
    }

    #[test]
    fn fields_one_after_another(rt: HostRuntime) {
        let first = Field {
            tag: tag(b'2', b'0', None),
            at: 55,
            content_at: 59,
            len: 2,
        };
        assert_eq!(rt; next_field(order(), 55), Ok(Next::More(first)));
        assert!(rt; first.content(order()) == b"T1".as_slice());
        assert_eq!(rt; first.behind(), 63);
        let second = Field {
            tag: tag(b'3', b'2', Some(b'A')),
            at: 63,
            content_at: 68,
            len: 2,
        };
        assert_eq!(rt; next_field(order(), 63), Ok(Next::More(second)));
        assert!(rt; second.content(order()) == b"1,".as_slice());
        assert_eq!(rt; second.behind(), 72);
        assert_eq!(rt; next_field(order(), 72), Ok(Next::End { hyphen: 72 }));
    }

    #[test]
    fn contents_with_lines(rt: HostRuntime) {
        let three = Field {
            tag: tag(b'7', b'0', None),
            at: 0,
            content_at: 4,
            len: 6,
        };
        assert_eq!(rt; next_field(lines(), 0), Ok(Next::More(three)));
        assert!(rt; three.content(lines()) == b"A\r\n\r\nB".as_slice());
        assert_eq!(rt; three.behind(), 12);
        let none = Field {
            tag: tag(b'2', b'0', None),
            at: 12,
            content_at: 16,
            len: 0,
        };
        assert_eq!(rt; next_field(lines(), 12), Ok(Next::More(none)));
        assert!(rt; none.content(lines()).is_empty());
        assert_eq!(rt; none.behind(), 18);
        let colon = Field {
            tag: tag(b'2', b'1', None),
            at: 18,
            content_at: 22,
            len: 2,
        };
        assert_eq!(rt; next_field(lines(), 18), Ok(Next::More(colon)));
        assert!(rt; colon.content(lines()) == b":C".as_slice());
        assert_eq!(rt; next_field(lines(), 26), Ok(Next::End { hyphen: 26 }));
    }

    #[test]
    fn bodies_are_counted(rt: HostRuntime) {
        let three = Body {
            fields: 3,
            hyphen: 26,
        };
        assert_eq!(rt; read_body(lines(), 0), Ok(three));
        let one = Body {
            fields: 1,
            hyphen: 26,
        };
        assert_eq!(rt; read_body(lines(), 18), Ok(one));
        assert_eq!(rt; read_body(lines(), 7), Err(Fault::Line { at: 7 }));
        assert_eq!(rt;
            read_body(b":20:A\r\n:21:B\r\nC{\r\n-}", 0),
            Err(Fault::Line { at: 14 })
        );
    }

    #[test]
    fn tags_have_a_width(rt: HostRuntime) {
        assert_eq!(rt; tag(b'2', b'0', None).width(), 4);
        assert_eq!(rt; tag(b'3', b'2', Some(b'A')).width(), 5);
    }

    #[test]
    fn offsets_past_the_end(rt: HostRuntime) {
        let max = usize::MAX;
        assert_eq!(rt; next_field(order(), 74), Err(Fault::Line { at: 74 }));
        assert_eq!(rt; next_field(order(), 75), Err(Fault::Line { at: 75 }));
        assert_eq!(rt; next_field(order(), max), Err(Fault::Line { at: max }));
        assert_eq!(rt; next_field(b"", 0), Err(Fault::Line { at: 0 }));
        assert_eq!(rt; next_field(b"-", 0), Err(Fault::Line { at: 0 }));
        assert_eq!(rt; read_body(order(), 74), Err(Fault::Line { at: 74 }));
        assert_eq!(rt; read_body(order(), max), Err(Fault::Line { at: max }));
        assert_eq!(rt; read_user_header(order(), 75), None);
        assert_eq!(rt; read_user_header(order(), max), None);
    }

    #[test]
    fn fields_that_no_text_has(rt: HostRuntime) {
        let field = Field {
            tag: tag(b'2', b'0', None),
            at: 0,
            content_at: 72,
            len: usize::MAX,
        };
        assert!(rt; field.content(order()) == b"-}".as_slice());
        assert_eq!(rt; field.behind(), usize::MAX);
        let far = Field {
            tag: tag(b'2', b'0', None),
            at: 0,
            content_at: usize::MAX,
            len: 1,
        };
        assert!(rt; far.content(order()).is_empty());
        assert_eq!(rt; far.behind(), usize::MAX);
        let last = Field {
            tag: tag(b'2', b'0', None),
            at: 0,
            content_at: usize::MAX - 3,
            len: 1,
        };
        assert_eq!(rt; last.behind(), usize::MAX);
    }

    #[test]
    fn refusals_stand_where_their_part_begins(rt: HostRuntime) {
        assert_eq!(rt; lay_out(b""), Err(Fault::Length { at: 0 }));
        assert_eq!(rt; lay_out(&[b'{'; 10_001]), Err(Fault::Length { at: 0 }));
        assert_eq!(rt; lay_out(b"{1:\xe9"), Err(Fault::Byte { at: 3 }));
        assert_eq!(rt; lay_out(b"{1:F01"), Err(Fault::Block { at: 0 }));
        assert_eq!(rt; lay_out(part(order(), 0, 29)), Err(Fault::Block { at: 29 }));
        assert_eq!(rt; lay_out(part(order(), 0, 50)), Err(Fault::Block { at: 50 }));
        assert_eq!(rt; lay_out(part(order(), 0, 55)), Err(Fault::Line { at: 55 }));
        assert_eq!(rt; lay_out(part(order(), 0, 62)), Err(Fault::Line { at: 55 }));
        assert_eq!(rt; lay_out(part(order(), 0, 63)), Err(Fault::Line { at: 63 }));
        assert_eq!(rt; lay_out(part(order(), 0, 73)), Err(Fault::Line { at: 72 }));
    }
}
