//! Tests of `mt_text`, with expectations worked out by hand from docs/RULES.md.
#![tactic(auto)]

#[cfg(test)]
mod tests {
    use mt_text::{
        Class, Fault, MAX_TEXT, all_of, check_bytes, is_alphanumeric, is_capital, is_digit, is_hex,
        is_printable, put_front,
    };
    use std::test::Fail;

    // How many of the 256 bytes a class has.
    fn size_of_class(class: Class) -> usize {
        (0..=255u8).filter(|b| class.has(*b)).count()
    }

    #[test]
    fn classes_have_their_size(rt: HostRuntime) {
        assert_eq!(rt; size_of_class(Class::Digit), 10);
        assert_eq!(rt; size_of_class(Class::Capital), 26);
        assert_eq!(rt; size_of_class(Class::Alphanumeric), 36);
        assert_eq!(rt; size_of_class(Class::Hex), 16);
        assert_eq!(rt; size_of_class(Class::Printable), 73);
    }

    #[test]
    fn classes_end_where_they_should(rt: HostRuntime) {
        assert!(rt; is_digit(b'0') && is_digit(b'9') && !is_digit(b'/') && !is_digit(b':'));
        assert!(rt; is_capital(b'A') && is_capital(b'Z') && !is_capital(b'@') && !is_capital(b'['));
        assert!(rt; is_alphanumeric(b'0') && is_alphanumeric(b'Z') && !is_alphanumeric(b'a'));
        assert!(rt; is_hex(b'F') && is_hex(b'0') && !is_hex(b'G') && !is_hex(b'a'));
        assert!(rt; is_printable(b'z') && is_printable(b'\'') && is_printable(b' '));
        assert!(rt;
            !is_printable(b'\r') && !is_printable(b'{') && !is_printable(b'=') && !is_printable(200)
        );
    }

    #[test]
    fn all_of_looks_at_every_byte(rt: HostRuntime) {
        assert!(rt; all_of(Class::Digit, b""));
        assert!(rt; all_of(Class::Digit, b"0123456789"));
        assert!(rt; !all_of(Class::Digit, b"012345678A"));
        assert!(rt; !all_of(Class::Capital, b"aBC"));
        assert!(rt; all_of(Class::Printable, b"Ab 0/-?:().,'+"));
        assert!(rt; !all_of(Class::Hex, b"0F1g"));
    }

    #[test]
    fn faults_have_numbers(rt: HostRuntime) {
        let faults = [
            Fault::Length { at: 0 },
            Fault::Byte { at: 0 },
            Fault::Block { at: 0 },
            Fault::UnknownType { at: 0 },
            Fault::Line { at: 0 },
            Fault::FieldCount { at: 0 },
            Fault::Tag { at: 0 },
            Fault::Missing { at: 0 },
            Fault::Content { at: 0 },
            Fault::Balance { at: 0 },
            Fault::NoAccount,
            Fault::WrongCall,
            Fault::OtherAccount,
            Fault::ShortBuffer,
            Fault::BadArgument,
            Fault::ReferenceTaken,
            Fault::RoomFull,
            Fault::NoOrder,
            Fault::OrderRefuses,
            Fault::NumberGap,
            Fault::OpeningDiffers,
        ];
        assert_eq!(rt; faults.len(), 21);
        for (fault, number) in faults.iter().zip(1..=21u8) {
            assert_eq!(rt; fault.number(), number);
        }
    }

    #[test]
    fn faults_of_a_text_have_offsets(rt: HostRuntime) {
        assert_eq!(rt; Fault::Content { at: 80 }.offset(), Some(80));
        assert_eq!(rt; Fault::Length { at: 0 }.offset(), Some(0));
        assert_eq!(rt; Fault::Balance { at: 9_999 }.offset(), Some(9_999));
        assert_eq!(rt; Fault::NoAccount.offset(), None);
        assert_eq!(rt; Fault::ShortBuffer.offset(), None);
        assert_eq!(rt; Fault::OpeningDiffers.offset(), None);
    }

    #[test]
    fn faults_are_printed_with_number_and_offset(rt: HostRuntime) -> Result<(), Fail> {
        let alloc = rt.alloc();
        let block = Fault::Block { at: 29 };
        let closing = Fault::Balance { at: 9_999 };
        let buffer = Fault::ShortBuffer;
        assert_eq!(rt; format!(in alloc; "{block}")?.as_str(), "refused 3 at 29");
        assert_eq!(rt;
            format!(in alloc; "{closing}")?.as_str(),
            "refused 10 at 9999"
        );
        assert_eq!(rt; format!(in alloc; "{buffer}")?.as_str(), "refused 14");
        Ok(())
    }

    #[test]
    fn texts_have_a_length(rt: HostRuntime) {
        let long = [b'A'; 10_001];
        assert_eq!(rt; check_bytes(b""), Err(Fault::Length { at: 0 }));
        assert_eq!(rt; check_bytes(b"A"), Ok(()));
        assert_eq!(rt; check_bytes(&long[0..MAX_TEXT]), Ok(()));
        assert_eq!(rt; check_bytes(&long), Err(Fault::Length { at: 0 }));
    }

    #[test]
    fn foreign_bytes_are_told_where_they_stand(rt: HostRuntime) {
        assert_eq!(rt; check_bytes(b"{4:\r\n:20:A+B\r\n-}"), Ok(()));
        assert_eq!(rt; check_bytes(b"\tA"), Err(Fault::Byte { at: 0 }));
        assert_eq!(rt; check_bytes(b"AB=C=D"), Err(Fault::Byte { at: 2 }));
        assert_eq!(rt; check_bytes(b"A\x00"), Err(Fault::Byte { at: 1 }));
        assert_eq!(rt; check_bytes(b"A\x80"), Err(Fault::Byte { at: 1 }));
        assert_eq!(rt; check_bytes(b"{[}"), Err(Fault::Byte { at: 1 }));
        assert_eq!(rt; check_bytes(b"{|}"), Err(Fault::Byte { at: 1 }));
        assert_eq!(rt; check_bytes(b"AB&"), Err(Fault::Byte { at: 2 }));
    }

    #[test]
    fn buffers_take_what_fits(rt: HostRuntime) {
        let mut buffer = *b"......";
        assert_eq!(rt; put_front(b"ABC", &mut buffer), Ok(3));
        assert!(rt; buffer == *b"ABC...");
        assert_eq!(rt; put_front(b"", &mut buffer), Ok(0));
        assert!(rt; buffer == *b"ABC...");
        assert_eq!(rt; put_front(b"1234567", &mut buffer), Err(Fault::ShortBuffer));
        assert!(rt; buffer == *b"ABC...");
        assert_eq!(rt; put_front(b"123456", &mut buffer), Ok(6));
        assert!(rt; buffer == *b"123456");
    }
}
