//! Of the binary encoding: timestamps. Written by tests/vectors/make.py.

pub const ROWS: &str = r#"
~ A timestamp's body begins with the offset, a VarInt of minutes.
%E0%01%00%EAg%FC%0F%D0%81%81%80%80|1|1999-12-31T23:00-01:00%0A||CE7DED0C4C333D93|.%V%(U5P##M-|
%E0%01%00%EAh%0B%A0%0F%D0%81%81%80%80|BadTimestamp 4|||DC5E1517009BF601|.%#%@=;#####?|
%E0%01%00%EAhK%A0%0F%D0%81%81%80%80|BadTimestamp 4|||36AEBC0FED19FE64|.%#%:=-#####?|
%E0%01%00%EA`|BadTimestamp 4|||9F9C11B906852215|.%#%<|
~ The offset minus zero is the unknown one.
%E0%01%00%EAg%C0%0F%D0%81%81%80%80|1|2000-01-01T00:00-00:00%0A||DF3333702625840B|.%V%9U@I##[A|
%E0%01%00%EAa%C0|BadTimestamp 4|||267AC70507E11524|.%#%3?|
~ Then comes the year, a VarUInt of 1 to 9999.
%E0%01%00%EAc%C0N%8Fb%C0%81|2|9999T%0A0001T%0A||EBE8B72DA64819B5|.%Q%0HVU,K4|
%E0%01%00%EAc%C0N%90|BadTimestamp 4|||B300D1A4F4D4AB9D|.%#%0#T<|
%E0%01%00%EAb%C0%80|BadTimestamp 4|||D7B51AF0477D600F|.%#%1#F|
~ Then the month.
%E0%01%00%EAd%C0%0F%D0%8C|1|2000-12T%0A||3552BCE01E2E9A4E|.%4%N0X,?|
%E0%01%00%EAd%C0%0F%D0%8D|BadTimestamp 4|||CC70F82B66235DC2|.%#%N<##?|
%E0%01%00%EAd%C0%0F%D0%80|BadTimestamp 4|||D792CB008F3C2EAF|.%#%=###?|
~ Then the day, which that month has.
%E0%01%00%EAe%C0%0F%D0%82%9D|1|2000-02-29%0A||7B2D627E00BFF939|.%'%NPBY#?|
%E0%01%00%EAe%C0%0F%D1%82%9D|BadTimestamp 4|||A7443AF58D026C4B|.%#%8##Y#?|
%E0%01%00%EAe%C0%0F%D0%81%80|BadTimestamp 4|||87707A4A262ACED2|.%#%9####?|
~ Then the hour and minute together.
%E0%01%00%EAg%C0%0F%D0%81%81%97%BB|1|2000-01-01T23:59-00:00%0A||FCBB2CFB44A87715|.%Z%9;/8##LY|
%E0%01%00%EAf%C0%0F%D0%81%81%97|BadTimestamp 4|||3E2D768B5E275F99|.%#%9A##RR?|
%E0%01%00%EAg%C0%0F%D0%81%81%98%80|BadTimestamp 4|||733D59327152E73D|.%#%9#####[?|
%E0%01%00%EAg%C0%0F%D0%81%81%97%BC|BadTimestamp 4|||BE10544E092FD70F|.%#%9######Y|
~ Then the second, of 0 to 59.
%E0%01%00%EAh%80%0F%D0%81%81%80%80%BB|1|2000-01-01T00:00:59Z%0A||AB9361ECFE5C64F8|.%B%:7+K##BB)|
%E0%01%00%EAh%80%0F%D0%81%81%80%80%BC|BadTimestamp 4|||2A4AABDCD6B1DF91|.%#%:#######)|
%E0%01%00%EAh%80%0F%D0%81%81%80%80;|BadVar 4|||06DCF88653046228|.%4%:))))))))|
~ Each field is a VarUInt, and ends in the body.
%E0%01%00%EAi%80%0F%D0%81%81%80%80%00%BB|1|2000-01-01T00:00:59Z%0A||5554719BF97B2596|.%B%:7+K##BBV)|
%E0%01%00%EAi%80%0F%D0%81%81%80%80%00%00|BadVar 4|||28C1FA4C9438065D|.%4%:)))))))))|
~ After the second comes a fraction: a VarInt, the exponent, and an Int, the coefficient.
%E0%01%00%EAj%80%0F%D0%81%81%80%80%80%C1%05|1|2000-01-01T00:00:00.5Z%0A||CBA3DB8FD335CDCD|.%1%:K)4??YYY3Z|
%E0%01%00%EAi%80%0F%D0%81%81%80%80%80A|BadVar 4|||030B7E0E9EBC2EDD|.%4%:)?)))))):|
~ A fraction's coefficient without octets is 0.
%E0%01%00%EAi%80%0F%D0%81%81%80%80%80%C1|1|2000-01-01T00:00:00.0Z%0A||4339C4123D2B8A13|.%7%:.8Z##999:|
%E0%01%00%EAj%80%0F%D0%81%81%80%80%80AA|BadVar 4|||672D53E851C3A3F3|.%4%:)?))))))3H|
~ A fraction has at most 38 digits.
%E0%01%00%EAi%80%0F%D0%81%81%80%80%80%E6|1|2000-01-01T00:00:00.00000000000000000000000000000000000000Z%0A||882C1163F0C7380E|.%3%:G@M##EEE:|
%E0%01%00%EAi%80%0F%D0%81%81%80%80%80%E7|Range 4|||E29F0AE8BD92CBD0|.%O%:7<777777:|
~ The fields are in UTC, and text shows them with the offset added.
%E0%01%00%EAg%BC%0F%D0%81%81%97%9Eg%FC%0F%D0%81%81%80%9E|2|2000-01-02T00:30+01:00%0A1999-12-31T23:30-01:00%0A||E367021CE589D2B7|.%=%<:&$##95*0E%[[)M|
%E0%01%00%EAg%81N%8F%8C%9F%97%BB|BadTimestamp 4|||4A02B1D5D0EAFD50|.%#%[8QM##?F|
~ The unknown offset counts as 0.
%E0%01%00%EAg%C0N%8F%8C%9F%97%BB|1|9999-12-31T23:59-00:00%0A||0B9D0BAB36918FD7|.%=%08SC##,D|
%E0%01%00%EAg%C1%81%81%81%80%80|Truncated 4|||F68F2CB0E0E7E53F|.%,%.CCCCCC|
~ A fraction is at least 0.
%E0%01%00%EAj%80%0F%D0%81%81%80%80%80%C1%00|1|2000-01-01T00:00:00.0Z%0A||86F394300D3AF8FE|.%7%:#8/??444:Z|
%E0%01%00%EAj%80%0F%D0%81%81%80%80%80%C1%81|BadTimestamp 4|||14114E39E834B586|.%#%:########RZ|
~ A fraction is below 1.
%E0%01%00%EAj%80%0F%D0%81%81%80%80%80%C2c|1|2000-01-01T00:00:00.99Z%0A||D7EBC048188A1D10|.%'%:P$S??===3@|
%E0%01%00%EAj%80%0F%D0%81%81%80%80%80%C2d|BadTimestamp 4|||D8FE16EFB67FBFAF|.%#%:?#??????3@|
~ A fraction of zero with an exponent above -1 is none.
%E0%01%00%EAi%80%0F%D0%81%81%80%80%80%81|1|2000-01-01T00:00:00Z%0A||B187F7261247FAB8|.%*%:,J:##$$$:|
%E0%01%00%EAj%80%0F%D0%81%81%80%80%80%80%01|BadTimestamp 4|||0E3EBC709E60CA69|.%#%:?#??????3J|
~ A fraction of zero with an exponent of -1 or less keeps its digits.
%E0%01%00%EAi%80%0F%D0%81%81%80%80%80%C3|1|2000-01-01T00:00:00.000Z%0A||E90D149BBC7ED41D|.%+%:/-:##&&&:|
%E0%01%00%EAj%80%0F%D0%81%81%80%80%80%C3%81|BadTimestamp 4|||45675365912EB49A|.%#%:########RX|
~ A fraction of minus zero is zero.
%E0%01%00%EAj%80%0F%D0%81%81%80%80%80%C1%80|1|2000-01-01T00:00:00.0Z%0A||24AC64B82024F766|.%7%:.8Z##9998Z|
%E0%01%00%EAj%80%0F%D0%81%81%80%80%80%C1%8A|BadTimestamp 4|||14114E39E834B586|.%#%:########RZ|
~ To the year, month or day, the offset is read and means nothing.
%E0%01%00%EAd%0B%A0%0F%D0e%FC%0F%D0%81%81|2|2000T%0A2000-01-01%0A||1614C55F5C8A9442|.%Q%@=V6K[VLC8O|
%E0%01%00%EAg%0B%A0%0F%D0%81%81%80|BadTimestamp 4|||ABF958D6F282E7B7|.%#%@######?|
%E0%01%00%EAc@%0F%D0|BadTimestamp 4|||D08940CDD96DE58E|.%#%:2/?|
"#;
