//! Contents that each format accepts and refuses.

#[cfg(test)]
mod tests {
    use crate::judge::*;
    use content_lines::{Lines, Words};
    use content_party::Places;

    const X16: Kind = Kind::Lines(Lines {
        count: 1,
        width: 16,
    });

    const X35: Kind = Kind::Lines(Lines {
        count: 1,
        width: 35,
    });

    const X4_35: Kind = Kind::Lines(Lines {
        count: 4,
        width: 35,
    });

    const X5_35: Kind = Kind::Lines(Lines {
        count: 5,
        width: 35,
    });

    const X6_35: Kind = Kind::Lines(Lines {
        count: 6,
        width: 35,
    });

    const X3_35: Kind = Kind::Lines(Lines {
        count: 3,
        width: 35,
    });

    const X3_50: Kind = Kind::Lines(Lines {
        count: 3,
        width: 50,
    });

    const DENAR: Kind = Kind::Money(*b"MKD");

    const EURO: Kind = Kind::Money(*b"EUR");

    #[test]
    fn one_line(rt: HostRuntime) {
        assert!(rt;
            all_judged(
                X16,
                true,
                b"A~ABCDEFGHIJKLMNO~ABCDEFGHIJKLMNOP~:A~-A~/A~ ~a",
            )
        );
        assert!(rt; all_judged(X16, false, b"~ABCDEFGHIJKLMNOPQ~A|B~A|~|A~A_B~A{B"));
        assert!(rt;
            all_judged(
                X35,
                true,
                b"1~1234567890123456789012345678901234~12345678901234567890123456789012345",
            )
        );
        assert!(rt; all_judged(X35, false, b"~123456789012345678901234567890123456~1|2"));
    }

    #[test]
    fn several_lines(rt: HostRuntime) {
        assert!(rt;
            all_judged(
                X4_35,
                true,
                b"A~A|B|C|D~A| |C~12345678901234567890123456789012345|B~:A|B~-A|B",
            )
        );
        assert!(rt;
            all_judged(
                X4_35,
                false,
                b"~A|B|C|D|E~A||B~A|~|~A|:B~A|-B~A|B|:C~123456789012345678901234567890123456~A|B|",
            )
        );
        assert!(rt; all_judged(X5_35, true, b"A|B|C|D|E"));
        assert!(rt; all_judged(X5_35, false, b"A|B|C|D|E|F"));
        assert!(rt; all_judged(X6_35, true, b"A|B|C|D|E|F"));
        assert!(rt; all_judged(X6_35, false, b"A|B|C|D|E|F|G"));
        assert!(rt; all_judged(X3_35, true, b"A|B|C"));
        assert!(rt; all_judged(X3_35, false, b"A|B|C|D"));
        assert!(rt;
            all_judged(
                X3_50,
                true,
                b"12345678901234567890123456789012345678901234567890|B|C",
            )
        );
        assert!(rt;
            all_judged(
                X3_50,
                false,
                b"123456789012345678901234567890123456789012345678901~A|B|C|D",
            )
        );
    }

    #[test]
    fn words(rt: HostRuntime) {
        assert!(rt; all_judged(Kind::Word(Words::Credit), true, b"CRED"));
        assert!(rt; all_judged(Kind::Word(Words::Credit), false, b"~cred~CRED ~CRE~BEN"));
        assert!(rt; all_judged(Kind::Word(Words::Charges), true, b"BEN~OUR~SHA"));
        assert!(rt; all_judged(Kind::Word(Words::Charges), false, b"~SHAR~BE~CRED~Ben"));
    }

    #[test]
    fn money(rt: HostRuntime) {
        assert!(rt;
            all_judged(
                DENAR,
                true,
                b"260105MKD250,~260105MKD0250,50~260105MKD0,01~000229MKD1,~791231MKD999999999999,99",
            )
        );
        assert!(rt;
            all_judged(
                DENAR,
                false,
                b"~260105MKD0,00~260105MKD250~260105EUR250,~260105mkd250,~260229MKD250,~260105MKD 250,~260105MKD250,|~260105MKD9999999999999,99~260105MKD,5~260105MKD",
            )
        );
        assert!(rt; all_judged(EURO, true, b"260105EUR250,"));
        assert!(rt; all_judged(EURO, false, b"260105MKD250,"));
    }

    #[test]
    fn customers(rt: HostRuntime) {
        assert!(rt;
            all_judged(
                Kind::Customer,
                true,
                b"NAME~NAME|STREET|TOWN|STATE~/1|NAME~/1|A|B|C|D~/1|/A|/B~/1234567890123456789012345678901234|NAME~ /1~//1|NAME",
            )
        );
        assert!(rt;
            all_judged(
                Kind::Customer,
                false,
                b"~NAME|STREET|TOWN|STATE|MORE~/1|A|B|C|D|E~/1~/|NAME~/12345678901234567890123456789012345|NAME~/1|:A~/1|-A~/1|~A|:B",
            )
        );
    }

    #[test]
    fn parties(rt: HostRuntime) {
        let denar = Kind::Party(Places::EightOrEleven);
        let euro = Kind::Party(Places::ElevenOnly);
        assert!(rt;
            all_judged(
                denar,
                true,
                b"KOBSMK2X~KOBSMK2XXXX~KOBSMK2X001~/1|KOBSMK2X~/D/1|KOBSMK2X~/D|KOBSMK2X~/d/1|KOBSMK2X~/D//|KOBSMK2X~//X|KOBSMK2X",
            )
        );
        assert!(rt;
            all_judged(
                denar,
                true,
                b"/1234567890123456789012345678901234|KOBSMK2X~/D/1234567890123456789012345678901234|KOBSMK2X",
            )
        );
        assert!(rt;
            all_judged(
                denar,
                false,
                b"~/D/|KOBSMK2X~/|KOBSMK2X~/1~1|KOBSMK2X~KOBSMK2~KOBSMK2X0~KOBSMK2X01~KOBSMK2X0011~KOBSMK2x~KOB1MK2X~/1|KOBSMK2X|A~|KOBSMK2X",
            )
        );
        assert!(rt;
            all_judged(
                denar,
                false,
                b"/12345678901234567890123456789012345|KOBSMK2X~/D/12345678901234567890123456789012345|KOBSMK2X",
            )
        );
        assert!(rt; all_judged(euro, true, b"KOBSMK2XXXX~/D/1|KOBSMK2XXXX"));
        assert!(rt; all_judged(euro, false, b"KOBSMK2X~/D/1|KOBSMK2X"));
    }

    #[test]
    fn numbers(rt: HostRuntime) {
        assert!(rt; all_judged(Kind::Number, true, b"00007~7~7/1~007/1~10~99999~1~00001/1"));
        assert!(rt;
            all_judged(
                Kind::Number,
                false,
                b"~7/2~7/01~7/~7/11~/1~0~00000/1~000007~100000~7 ~7|",
            )
        );
    }

    #[test]
    fn balances(rt: HostRuntime) {
        let denar = Kind::Balance(*b"MKD");
        assert!(rt;
            all_judged(
                denar,
                true,
                b"C260105MKD100,~D260105MKD030,50~C260105MKD0,~D260105MKD0,00",
            )
        );
        assert!(rt;
            all_judged(
                denar,
                false,
                b"~C~RC260105MKD1,~E260105MKD1,~260105MKD1,~C260105EUR1,~C260105MKD1~C260132MKD1,",
            )
        );
    }

    #[test]
    fn entries(rt: HostRuntime) {
        assert!(rt;
            all_judged(
                Kind::Entry,
                true,
                b"260105C100,NTRFREF~260105RD0,5NTRFREF~260105RC0,5NTRFREF~2601050105C1,NTRFREF~2601050229C1,NTRFREF~260105CR1,NTRFREF~260105RCD1,NTRFREF",
            )
        );
        assert!(rt;
            all_judged(
                Kind::Entry,
                true,
                b"260105C1,1TRFREF~260105C1,NTRFA//B~260105C1,NTRFA///B~260105C1,NTRFA//B//C~260105C1,NTRFA/~260105C1,NTRF1234567890123456~260105C1,NTRF1234567890123456//1234567890123456",
            )
        );
        assert!(rt;
            all_judged(
                Kind::Entry,
                true,
                b"260105C1,NTRFREF|INFO~260105C1,NTRFREF|1234567890123456789012345678901234",
            )
        );
        assert!(rt;
            all_judged(
                Kind::Entry,
                false,
                b"~2601050230C1,NTRFREF~26010501C1,NTRFREF~260105CRD1,NTRFREF~260105R1,NTRFREF~260105ED1,NTRFREF~260105C0,NTRFREF~260105C1,NTR-REF~260105C1,234NTRFREF~260105C1,1,NTRFREF",
            )
        );
        assert!(rt;
            all_judged(
                Kind::Entry,
                false,
                b"260105C1,NTRF//B~260105C1,NTRFA//~260105C1,NTRF~260105C1,NTRF12345678901234567~260105C1,NTRFA//12345678901234567~260105C1,NTRF12345678901234567//B",
            )
        );
        assert!(rt;
            all_judged(
                Kind::Entry,
                false,
                b"260105C1,NTRFREF|12345678901234567890123456789012345~260105C1,NTRFREF|~260105C1,NTRFREF|A|B~260105C1,NTRFREF|:A~260105C1,NTRFREF|-A~260105~260105C",
            )
        );
    }

    #[test]
    fn answers(rt: HostRuntime) {
        assert!(rt;
            all_judged(
                Kind::Answer,
                true,
                b"STAT|SETL~STAT/2601051355+0100|REJT/2601051400-0030~STAT|SETL/2601051355+0100~STAT|INAC~STAT|WAIT~STAT/2601050000+2359|ERRC",
            )
        );
        assert!(rt;
            all_judged(
                Kind::Answer,
                false,
                b"~STAT~STAT|COND~CANC|SETL~STAT|SETL|A~STAT|setl~STAT/|SETL~STAT/260105|SETL~STAT/2601051355|SETL~STAT/2601051360+0100|SETL~STAT/2601051355+0160|SETL~STAT/2601051355 0100|SETL~STAT/2602301355+0100|SETL~STAT|~STAT|SET",
            )
        );
    }

    #[test]
    fn related(rt: HostRuntime) {
        assert!(rt;
            all_judged(
                Kind::Related,
                true,
                b"103|260105~103|260105|4444666666~999|800101",
            )
        );
        assert!(rt;
            all_judged(
                Kind::Related,
                false,
                b"~103~103|20260105~103|260230~10|260105~103|260105|444466666~103|260105|44446666660~103|260105|~1O3|260105",
            )
        );
    }
}
