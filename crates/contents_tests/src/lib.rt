//! Tests of `contents`, with expectations worked out by hand from docs/RULES.md.
#![tactic(auto)]

#[cfg(test)]
mod tests {
    use contents::{
        Date, MonthDay, Time, is_date, is_time, normal_amount, read_amount, read_date,
        read_month_day, read_number, read_time, write_normal_amount,
    };
    use mt_text::Fault;

    #[test]
    fn real_days_are_read(rt: HostRuntime) {
        let first = Date {
            year: 1980,
            month: 1,
            day: 1,
        };
        let last = Date {
            year: 2079,
            month: 12,
            day: 31,
        };
        assert_eq!(rt; read_date(b"800101"), Some(first));
        assert_eq!(rt; read_date(b"791231"), Some(last));
        for day in [
            b"000229", b"240229", b"760229", b"991231", b"260430", b"801231",
        ] {
            assert!(rt; read_date(day).is_some());
        }
    }

    #[test]
    fn other_days_are_not(rt: HostRuntime) {
        let none = [
            b"260229", b"790229", b"810229", b"260230", b"000230", b"260431", b"260631", b"260931",
            b"261131", b"260132", b"261301", b"260001", b"260100", b"2601O5", b" 60105", b"26010 ",
        ];
        for text in none {
            assert_eq!(rt; read_date(text), None);
        }
        assert_eq!(rt; read_date(b""), None);
        assert_eq!(rt; read_date(b"26010"), None);
        assert_eq!(rt; read_date(b"2601055"), None);
        assert_eq!(rt; read_date(b"20260105"), None);
    }

    #[test]
    fn dates_and_times_are_told(rt: HostRuntime) {
        assert!(rt; is_date(b"240229") && !is_date(b"260229") && !is_date(b"26022"));
        assert!(rt; is_time(b"2359") && !is_time(b"2400") && !is_time(b""));
    }

    // Whether both are days, and the first comes before the second.
    fn earlier(a: &[u8], b: &[u8]) -> bool {
        match (read_date(a), read_date(b)) {
            (Some(a), Some(b)) => a.is_before(b),
            _ => false,
        }
    }

    #[test]
    fn days_compare_across_the_century(rt: HostRuntime) {
        assert!(rt; earlier(b"800101", b"791231") && !earlier(b"791231", b"800101"));
        assert!(rt; earlier(b"991231", b"000101") && !earlier(b"000101", b"991231"));
        assert!(rt; earlier(b"260105", b"260106") && !earlier(b"260105", b"260105"));
        assert!(rt; earlier(b"260131", b"260201") && !earlier(b"260201", b"260131"));
        assert!(rt; earlier(b"251231", b"260101") && !earlier(b"260101", b"251231"));
    }

    #[test]
    fn times_of_day(rt: HostRuntime) {
        let noon = Time {
            hour: 12,
            minute: 0,
        };
        assert_eq!(rt; read_time(b"1200"), Some(noon));
        assert!(rt; read_time(b"0000").is_some() && read_time(b"2359").is_some());
        for text in [
            b"2400", b"1260", b"2360", b"99  ", b"12:0", b"-100", b"1 00",
        ] {
            assert_eq!(rt; read_time(text), None);
        }
        assert_eq!(rt; read_time(b"120"), None);
        assert_eq!(rt; read_time(b"12000"), None);
    }

    #[test]
    fn days_of_any_year(rt: HostRuntime) {
        let leap_day = MonthDay { month: 2, day: 29 };
        assert_eq!(rt; read_month_day(b"0229"), Some(leap_day));
        assert!(rt; read_month_day(b"0101").is_some() && read_month_day(b"1231").is_some());
        for text in [
            b"0230", b"0431", b"0001", b"1301", b"0100", b"0132", b"01O1",
        ] {
            assert_eq!(rt; read_month_day(text), None);
        }
        assert_eq!(rt; read_month_day(b"229"), None);
    }

    #[test]
    fn numbers_of_digits(rt: HostRuntime) {
        assert_eq!(rt; read_number(b""), Some(0));
        assert_eq!(rt; read_number(b"00042"), Some(42));
        assert_eq!(rt;
            read_number(b"9999999999999999999"),
            Some(9_999_999_999_999_999_999)
        );
        assert_eq!(rt; read_number(b"00000000000000000001"), None);
        assert_eq!(rt; read_number(b"12x"), None);
    }

    // Whether the amount has this worth and this normal form.
    fn is_worth(text: &[u8], hundredths: u64, normal: &[u8]) -> bool {
        match (read_amount(text), normal_amount(text)) {
            (Some(worth), Some(part)) => worth == hundredths && part == normal,
            _ => false,
        }
    }

    #[test]
    fn amounts_have_a_worth(rt: HostRuntime) {
        assert!(rt; is_worth(b"01000,00", 100_000, b"1000,"));
        assert!(rt; is_worth(b"250,", 25_000, b"250,"));
        assert!(rt; is_worth(b"0,", 0, b"0,"));
        assert!(rt; is_worth(b"00,00", 0, b"0,"));
        assert!(rt; is_worth(b"0,5", 50, b"0,5"));
        assert!(rt; is_worth(b"0,50", 50, b"0,5"));
        assert!(rt; is_worth(b"0,05", 5, b"0,05"));
        assert!(rt; is_worth(b"007,10", 710, b"7,1"));
        assert!(rt; is_worth(b"100,01", 10_001, b"100,01"));
        assert!(rt; is_worth(b"10,", 1_000, b"10,"));
        assert!(rt;
            is_worth(
                b"99999999999999,",
                9_999_999_999_999_900,
                b"99999999999999,",
            )
        );
        assert!(rt; is_worth(b"999999999999,99", 99_999_999_999_999, b"999999999999,99"));
        assert!(rt; is_worth(b"000000000000,01", 1, b"0,01"));
    }

    #[test]
    fn other_texts_are_no_amounts(rt: HostRuntime) {
        assert_eq!(rt; read_amount(b""), None);
        assert_eq!(rt; read_amount(b","), None);
        assert_eq!(rt; read_amount(b"1"), None);
        assert_eq!(rt; read_amount(b",5"), None);
        assert_eq!(rt; read_amount(b"1000"), None);
        assert_eq!(rt; read_amount(b"1,234"), None);
        assert_eq!(rt; read_amount(b"1,2,"), None);
        assert_eq!(rt; read_amount(b"1,,"), None);
        assert_eq!(rt; read_amount(b"-1,5"), None);
        assert_eq!(rt; read_amount(b"1.5"), None);
        assert_eq!(rt; read_amount(b"1 ,5"), None);
        assert_eq!(rt; read_amount(b"1,5 "), None);
        assert_eq!(rt; read_amount(b"999999999999999,"), None);
        assert_eq!(rt; read_amount(b"9999999999999,99"), None);
        assert_eq!(rt; read_amount(b"0000000000000001,"), None);
    }

    #[test]
    fn normal_amounts_are_written(rt: HostRuntime) {
        let mut buffer = *b"........";
        assert_eq!(rt; write_normal_amount(b"01000,00", &mut buffer), Ok(5));
        assert!(rt; buffer == *b"1000,...");
        assert_eq!(rt;
            write_normal_amount(b",5", &mut buffer),
            Err(Fault::Content { at: 0 })
        );
        assert_eq!(rt;
            write_normal_amount(b"12345678,", &mut buffer),
            Err(Fault::ShortBuffer)
        );
        assert!(rt; buffer == *b"1000,...");
        assert_eq!(rt; write_normal_amount(b"1234567,00", &mut buffer), Ok(8));
        assert!(rt; buffer == *b"1234567,");
    }
}
