//! Normal contents and values.

#[cfg(test)]
mod tests {
    use crate::judge::*;
    use content_answer::{AnswerCode, read_answer};
    use content_entry::read_entry;
    use content_lines::Lines;
    use content_money::{read_balance, read_money, read_statement_number};
    use content_party::{Places, read_party};
    use std::test::Fail;

    #[test]
    fn written(rt: HostRuntime) {
        assert!(rt; is_written(Kind::Money(*b"MKD"), b"260105MKD0250,50", b"260105MKD250,5"));
        assert!(rt;
            is_written(
                Kind::Balance(*b"MKD"),
                b"D260105MKD030,50",
                b"D260105MKD30,5",
            )
        );
        assert!(rt; is_written(Kind::Balance(*b"MKD"), b"D260105MKD0,00", b"C260105MKD0,"));
        assert!(rt; is_written(Kind::Number, b"00007", b"7/1"));
        assert!(rt; is_written(Kind::Number, b"10", b"10/1"));
        assert!(rt;
            is_written(
                Kind::Party(Places::EightOrEleven),
                b"/D/1\r\nKOBSMK2X",
                b"/D/1\r\nKOBSMK2XXXX",
            )
        );
        assert!(rt;
            is_written(
                Kind::Party(Places::EightOrEleven),
                b"KOBSMK2X001",
                b"KOBSMK2X001",
            )
        );
        assert!(rt;
            is_written(
                Kind::Entry,
                b"260105D0030,50NTRFREF\r\nINFO",
                b"260105D30,5NTRFREF\r\nINFO",
            )
        );
        assert!(rt; is_written(Kind::Customer, b"/1\r\nNAME", b"/1\r\nNAME"));
        assert!(rt;
            is_written(
                Kind::Lines(Lines {
                    count: 4,
                    width: 35
                }),
                b"A\r\nB",
                b"A\r\nB",
            )
        );
        assert!(rt; is_written(Kind::Answer, b"STAT\r\nSETL", b"STAT\r\nSETL"));
        assert!(rt; is_written(Kind::Related, b"103\r\n260105", b"103\r\n260105"));
    }

    #[test]
    fn signed_lines(rt: HostRuntime) {
        assert_eq!(rt; read_entry(b"260105C100,NTRFREF"), Some(10_000));
        assert_eq!(rt; read_entry(b"260105D0030,50NTRFREF"), Some(-3_050));
        assert_eq!(rt; read_entry(b"260105RD0,5NTRFREF"), Some(50));
        assert_eq!(rt; read_entry(b"260105RC0,5NTRFREF"), Some(-50));
    }

    #[test]
    fn values(rt: HostRuntime) -> Result<(), Fail> {
        let money = read_money(*b"MKD", b"260105MKD0250,50").ok_or("no money")?;
        assert_eq!(rt; money.hundredths, 25_050);
        assert_eq!(rt; money.date.day, 5);
        let balance = read_balance(*b"MKD", b"D260105MKD030,50").ok_or("no balance")?;
        assert_eq!(rt; balance.hundredths, -3_050);
        assert_eq!(rt; read_statement_number(b"007/1"), Some(7));
        assert_eq!(rt; read_answer(b"STAT\r\nREJT"), Some(AnswerCode::Rejt));
        Ok(())
    }

    #[test]
    fn party_parts(rt: HostRuntime) -> Result<(), Fail> {
        let party = read_party(Places::EightOrEleven, b"/D/1\r\nKOBSMK2X").ok_or("no party")?;
        let account = party.account.ok_or("no account")?;
        assert_eq!(rt; account.bytes, b"1".as_slice());
        assert_eq!(rt; account.at, 3);
        assert_eq!(rt; party.code.bytes, b"KOBSMK2X".as_slice());
        assert_eq!(rt; party.code.at, 6);
        Ok(())
    }
}
