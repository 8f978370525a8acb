//! Questions about whole DACLs, and what [MS-DTYP] 2.5.3.2 and [MS-ADTS] 5.1.3 make of them.

/// Each question: the descriptor; the object types asked about; whom PRINCIPAL SELF stands for; groups of the user; a
/// mask; then the plain descriptor, and the verdict. A line without columns says why for the rows after it. `%` stands
/// for the user, S-1-5-21-1-2-3-1001, whose claim Grade is 5; `~` for the class user, `^` for its property set
/// Personal-Information, `$` for a property in it, Telephone-Number, and `#` for another property, Description.
pub(crate) const ROWS: &str = "\
an allow or a deny is what it is, whatever is asked about (2.4.4.2, 2.4.4.4)
D:(A;;FR;;;BU) | - | - | BU | 0x1 | D:(A;;FR;;;BU) | granted 0x1
D:(D;;FW;;;BU)(A;;FA;;;BU) | ~ ^ $ | - | BU | 0x2 | D:(D;;FW;;;BU)(A;;FA;;;BU) | denied 0x2
D:PAI(A;OICI;FR;;;BU)(A;OICIIO;GA;;;BU) | - | - | BU | 0x3 | D:PAI(A;OICI;FR;;;BU)(A;OICIIO;GA;;;BU) | denied 0x2
O:BAG:SYD: | - | - | BU | 0x1 | O:BAG:SYD: | denied 0x1
D:NO_ACCESS_CONTROL | $ | - | BU | 0x1 | D:NO_ACCESS_CONTROL | granted 0x1
O:BA | $ | - | BU | 0x1 | O:BA | granted 0x1
an object allow without an ObjectType allows the whole object ([MS-ADTS] 5.1.3.2)
D:(OA;;FR;;;BU) | - | - | BU | 0x1 | D:(A;;FR;;;BU) | granted 0x1
D:(OA;;FR;;;BU) | ~ ^ $ | - | BU | 0x1 | D:(A;;FR;;;BU) | granted 0x1
D:(OA;;FR;;~;BU) | - | - | BU | 0x1 | D:(A;;FR;;;BU) | granted 0x1
D:(OA;;FR;;~;BU) | # | - | BU | 0x1 | D:(A;;FR;;;BU) | granted 0x1
one with an ObjectType allows that type alone, and nothing where no type is asked about
D:(OA;;FR;$;;BU) | - | - | BU | 0x1 | D:(A;;0x0;;;BU) | denied 0x1
D:(OA;;FR;$;;BU) | ~ ^ $ | - | BU | 0x1 | D:(A;;FR;;;BU) | granted 0x1
D:(OA;;FR;^;;BU) | ~ ^ $ | - | BU | 0x1 | D:(A;;FR;;;BU) | granted 0x1
D:(OA;;FR;~;;BU) | ~ ^ $ | - | BU | 0x1 | D:(A;;FR;;;BU) | granted 0x1
D:(OA;;FR;#;;BU) | ~ ^ $ | - | BU | 0x1 | D:(A;;0x0;;;BU) | denied 0x1
D:(OA;;FR;$;;BU) | ~ ^ | - | BU | 0x1 | D:(A;;0x0;;;BU) | denied 0x1
D:(OA;;FR;$;~;BU) | $ | - | BU | 0x1 | D:(A;;FR;;;BU) | granted 0x1
D:(OA;;0x1;$;;BU)(OA;;0x2;#;;BU) | ~ # | - | BU | 0x3 | D:(A;;0x0;;;BU)(A;;0x2;;;BU) | denied 0x1
an object deny without an ObjectType denies the whole object
D:(OD;;FR;;;BU)(A;;FA;;;BU) | - | - | BU | 0x3 | D:(D;;FR;;;BU)(A;;FA;;;BU) | denied 0x1
D:(OD;;FR;;;BU)(A;;FA;;;BU) | ~ ^ $ | - | BU | 0x3 | D:(D;;FR;;;BU)(A;;FA;;;BU) | denied 0x1
one with an ObjectType denies that type, and the whole object where no type is asked about
D:(OD;;FR;$;;BU)(A;;FA;;;BU) | - | - | BU | 0x3 | D:(D;;FR;;;BU)(A;;FA;;;BU) | denied 0x1
D:(OD;;FR;$;;BU)(A;;FA;;;BU) | ~ ^ $ | - | BU | 0x3 | D:(D;;FR;;;BU)(A;;FA;;;BU) | denied 0x1
D:(OD;;FR;^;;BU)(A;;FA;;;BU) | ~ ^ $ | - | BU | 0x3 | D:(D;;FR;;;BU)(A;;FA;;;BU) | denied 0x1
D:(OD;;FR;#;;BU)(A;;FA;;;BU) | ~ ^ $ | - | BU | 0x3 | D:(A;;0x0;;;BU)(A;;FA;;;BU) | granted 0x3
D:(OD;;FR;$;;BU)(A;;FA;;;BU) | ~ ^ | - | BU | 0x3 | D:(A;;0x0;;;BU)(A;;FA;;;BU) | granted 0x3
D:(OD;;FR;$;;BG)(A;;FA;;;BU) | - | - | BU | 0x3 | D:(D;;FR;;;BG)(A;;FA;;;BU) | granted 0x3
D:(A;;FR;;;BU)(OD;;FR;$;;BU) | - | - | BU | 0x1 | D:(A;;FR;;;BU)(D;;FR;;;BU) | granted 0x1
a conditional allow applies only if its condition is true, a conditional deny unless it is false (2.5.3.1.5)
D:(XA;;FR;;;BU;(@User.Level >= 5)) | - | - | BU | 0x1 | D:(A;;0x0;;;BU) | denied 0x1
D:(XD;;FR;;;BU;(@User.Level >= 5))(A;;FA;;;BU) | - | - | BU | 0x3 | D:(D;;FR;;;BU)(A;;FA;;;BU) | denied 0x1
D:(XA;;FR;;;BU;(!(@User.Level >= 5))) | - | - | BU | 0x1 | D:(A;;0x0;;;BU) | denied 0x1
D:(XD;;FR;;;BU;(!(@User.Level >= 5)))(A;;FA;;;BU) | - | - | BU | 0x1 | D:(D;;FR;;;BU)(A;;FA;;;BU) | denied 0x1
D:(ZA;;FR;$;;BU;(@User.Level >= 5)) | ~ ^ $ | - | BU | 0x1 | D:(A;;0x0;;;BU) | denied 0x1
D:(ZA;;FR;;;BU;(@User.Level >= 5)) | - | - | BU | 0x1 | D:(A;;0x0;;;BU) | denied 0x1
D:(XA;;FR;;;BU;(@User.Grade >= 5)) | - | - | BU | 0x1 | D:(A;;FR;;;BU) | granted 0x1
D:(XA;;FR;;;BU;(@User.Grade > 5)) | - | - | BU | 0x1 | D:(A;;0x0;;;BU) | denied 0x1
D:(XD;;FR;;;BU;(@User.Grade < 5))(A;;FA;;;BU) | - | - | BU | 0x1 | D:(A;;0x0;;;BU)(A;;FA;;;BU) | granted 0x1
D:(XA;;FR;;;BU;(Exists @User.Level)) | - | - | BU | 0x1 | D:(A;;0x0;;;BU) | denied 0x1
D:(XA;;FR;;;BU;(Not_Exists @User.Level)) | - | - | BU | 0x1 | D:(A;;FR;;;BU) | granted 0x1
D:(XD;;FR;;;BU;(Exists @User.Level))(A;;FA;;;BU) | - | - | BU | 0x1 | D:(A;;0x0;;;BU)(A;;FA;;;BU) | granted 0x1
D:(XA;;FR;;;WD;(Member_of {SID(BU)})) | - | - | WD BU | 0x1 | D:(A;;FR;;;WD) | granted 0x1
D:(XA;;FR;;;WD;(Member_of {SID(BU)})) | - | - | WD BU=deny | 0x1 | D:(A;;0x0;;;WD) | denied 0x1
D:(XD;;FR;;;WD;(Member_of {SID(BU)}))(A;;FA;;;WD) | - | - | WD BU=deny | 0x1 | D:(D;;FR;;;WD)(A;;FA;;;WD) | denied 0x1
D:(XD;;FR;;;WD;(Member_of {SID(BG)}))(A;;FA;;;WD) | - | - | WD BU | 0x1 | D:(A;;0x0;;;WD)(A;;FA;;;WD) | granted 0x1
a conditional object entry applies where both rules let it
D:(ZA;;FR;$;;BU;(@User.Grade == 5)) | ~ ^ $ | - | BU | 0x1 | D:(A;;FR;;;BU) | granted 0x1
D:(ZA;;FR;$;;BU;(@User.Grade == 5)) | - | - | BU | 0x1 | D:(A;;0x0;;;BU) | denied 0x1
D:(ZA;;FR;$;;BU;(@User.Grade == 5)) | ~ # | - | BU | 0x1 | D:(A;;0x0;;;BU) | denied 0x1
D:(ZA;;FR;$;;BU;(@User.Grade == 6)) | ~ ^ $ | - | BU | 0x1 | D:(A;;0x0;;;BU) | denied 0x1
PRINCIPAL SELF is the SID that the question names, and nobody's where it names none (2.5.3.1.1)
D:(A;;FR;;;PS) | - | % | - | 0x1 | D:(A;;FR;;;%) | granted 0x1
D:(A;;FR;;;PS) | - | - | - | 0x1 | D:(A;;FR;;;PS) | denied 0x1
D:(A;;FR;;;PS) | - | S-1-5-21-1-2-3-1002 | BU | 0x1 | D:(A;;FR;;;S-1-5-21-1-2-3-1002) | denied 0x1
D:(A;;FR;;;PS) | - | BU | BU | 0x1 | D:(A;;FR;;;BU) | granted 0x1
D:(OA;;FR;$;;PS) | ~ ^ $ | % | - | 0x1 | D:(A;;FR;;;%) | granted 0x1
D:(OA;;FR;$;;PS) | - | % | - | 0x1 | D:(A;;0x0;;;%) | denied 0x1
D:(D;;FR;;;PS)(A;;FA;;;BU) | - | % | BU | 0x3 | D:(D;;FR;;;%)(A;;FA;;;BU) | denied 0x1
D:(D;;FR;;;PS)(A;;FA;;;BU) | - | BG | BU | 0x3 | D:(D;;FR;;;BG)(A;;FA;;;BU) | granted 0x3
an inherit-only entry has no part in a check (2.4.4.1)
D:(OA;CIIO;FR;$;;BU) | ~ ^ $ | - | BU | 0x1 | D:(A;CIIO;0x0;;;BU) | denied 0x1
D:(OD;CIIO;FR;;~;BU)(A;;FA;;;BU) | - | - | BU | 0x1 | D:(A;CIIO;0x0;;;BU)(A;;FA;;;BU) | granted 0x1
D:(XD;CIIO;FR;;;BU;(@User.Level >= 5))(A;;FA;;;BU) | - | - | BU | 0x1 | D:(A;CIIO;0x0;;;BU)(A;;FA;;;BU) | granted 0x1
D:(AU;CIIOSA;FA;;;WD)(A;;FA;;;BU) | - | - | BU | 0x1 | D:(A;CIIOSA;0x0;;;WD)(A;;FA;;;BU) | granted 0x1
an effective entry for OWNER RIGHTS limits the owner, whether it applies or not (2.5.3.2)
O:%D:(A;;FR;;;BU) | - | - | BU | 0x40000 | O:%D:(A;;FR;;;BU) | granted 0x40000
O:%D:(OA;;RC;$;;OW) | - | - | - | 0x60000 | O:%D:(A;;0x0;;;OW) | denied 0x60000
O:%D:(OA;;RC;$;;OW) | ~ ^ $ | - | - | 0x60000 | O:%D:(A;;RC;;;OW) | denied 0x40000
O:%D:(XA;;RC;;;OW;(@User.Level >= 5)) | - | - | - | 0x60000 | O:%D:(A;;0x0;;;OW) | denied 0x60000
O:%D:(OA;CIIO;RC;$;;OW) | - | - | - | 0x60000 | O:%D:(A;CIIO;0x0;;;OW) | granted 0x60000
a restricted token is granted what both passes grant (2.5.3.2)
D:(OA;;FR;$;;BU)(A;;FR;;;RC) | ~ ^ $ | - | BU RC=restrict | 0x1 | D:(A;;FR;;;BU)(A;;FR;;;RC) | granted 0x1
D:(OA;;FR;$;;BU)(A;;FR;;;RC) | - | - | BU RC=restrict | 0x1 | D:(A;;0x0;;;BU)(A;;FR;;;RC) | denied 0x1
D:(OD;;FR;$;;RC)(A;;FA;;;BU) | - | - | BU RC=restrict | 0x1 | D:(D;;FR;;;RC)(A;;FA;;;BU) | denied 0x1
D:(XA;;FR;;;WD;(Member_of {SID(BU)})) | - | - | WD BU WD=restrict BU=restrict | 0x1 | D:(A;;FR;;;WD) | granted 0x1
D:(XA;CIIO;FR;;;WD;(Member_of {SID(BU)})) | - | - | WD BU WD=restrict | 0x1 | D:(A;CIIO;0x0;;;WD) | denied 0x1
D:(ZA;;FR;$;;WD;(Member_of {SID(BU)})) | - | - | WD BU WD=restrict | 0x1 | D:(A;;0x0;;;WD) | denied 0x1
";

/// Questions that are refused: as above, and then the entry that is refused, with the number and the name of why.
pub(crate) const REFUSED: &str = "\
entries of a SACL decide nothing in a DACL
D:(AU;SA;FA;;;WD) | - | - | BU | 1 3 SystemAce
D:(A;;FA;;;BU)(OU;SA;FA;$;;WD) | $ | - | BU | 2 3 SystemAce
D:(A;;FA;;;BU)(A;;FA;;;WD)(ML;;NW;;;ME) | - | - | BU | 3 3 SystemAce
D:(A;;FA;;;BU)(RA;;;;;WD;(\"a\",TI,0,1))(AU;SA;FA;;;WD) | - | - | BU | 2 3 SystemAce
a condition that differs between the passes of a restricted token
D:(XA;;FR;;;WD;(Member_of {SID(BU)})) | - | - | WD BU WD=restrict | 1 5 PassesDiffer
D:(A;;FR;;;BU)(XD;;FR;;;WD;(Member_of {SID(RC)})) | - | - | WD WD=restrict RC=restrict | 2 5 PassesDiffer
";

/// Labels: the descriptor, the token's level, and what is taken of the mapping of files (2.5.3.3). There GENERIC_READ
/// is 0x120089, GENERIC_WRITE 0x120116, GENERIC_EXECUTE 0x1200A0.
pub(crate) const LABELS: &str = "\
without a label an object is Medium, no write up: what GENERIC_READ and GENERIC_EXECUTE are mapped to is left, 0x1200a9
D: | 8192 | 0x0
D: | 4096 | 0xffedff56
S: | 8191 | 0xffedff56
S:NO_ACCESS_CONTROL | 4096 | 0xffedff56
S:(AU;SA;FA;;;WD) | 0 | 0xffedff56
what the rights that no policy bars are mapped to is left, and nothing else
S:(ML;;NW;;;HI) | 8192 | 0xffedff56
S:(ML;;NR;;;HI) | 8192 | 0xffedfe49
S:(ML;;NX;;;HI) | 8192 | 0xffedfe60
S:(ML;;NWNR;;;HI) | 8192 | 0xffedff5f
S:(ML;;NWNRNX;;;HI) | 8192 | 0xffffffff
S:(ML;;0x0;;;HI) | 8192 | 0xffedfe40
a token of the object's level or of a higher one loses nothing
S:(ML;;NWNRNX;;;HI) | 12288 | 0x0
S:(ML;;NWNRNX;;;HI) | 16384 | 0x0
S:(ML;;NWNRNX;;;LW) | 8192 | 0x0
the first effective label counts
S:(ML;;NR;;;LW)(ML;;NW;;;HI) | 8192 | 0x0
S:(AU;SA;FA;;;WD)(ML;;NW;;;SI) | 12288 | 0xffedff56
S:(ML;OIIO;NWNRNX;;;HI) | 8192 | 0x0
S:(ML;OIIO;NWNRNX;;;HI)(ML;;NX;;;HI) | 8192 | 0xffedfe60
a SID that is no integrity SID is above every level
S:(ML;;NW;;;WD) | 16384 | 0xffedff56
";

/// Verdicts under a label (2.5.3.3): the descriptor, the token's level, a mask, the verdict for a user of BU, and the
/// bits whose reason is the label.
pub(crate) const UNDER: &str = "\
a label denies what it takes, whatever the DACL grants
D:(A;;FA;;;BU)S:(ML;;NW;;;HI) | 8192 | 0x1 | granted 0x1 | 0x0
D:(A;;FA;;;BU)S:(ML;;NW;;;HI) | 8192 | 0x3 | denied 0x2 | 0x2
D:(A;;FA;;;BU)S:(ML;;NR;;;HI) | 8192 | 0x3 | denied 0x1 | 0x1
D:(A;;FA;;;BU)S:(ML;;NW;;;HI) | 12288 | 0x3 | granted 0x3 | 0x0
D:(A;;FA;;;BU) | 4096 | GW | denied 0x116 | 0x116
D:NO_ACCESS_CONTROL | 4096 | 0x3 | denied 0x2 | 0x2
DELETE, WRITE_DAC and WRITE_OWNER are no part of the three, and WRITE_DAC is taken from the owner too
D:(A;;FA;;;BU)S:(ML;;NW;;;HI) | 8192 | 0x10000 | denied 0x10000 | 0x10000
O:%D:S:(ML;;NW;;;HI) | 8192 | 0x20000 | granted 0x20000 | 0x0
O:%D:S:(ML;;NW;;;HI) | 8192 | 0x60000 | denied 0x40000 | 0x40000
beside what the DACL denies
D:(A;;0x2;;;BU)S:(ML;;NW;;;HI) | 8192 | 0x3 | denied 0x3 | 0x2
D:S:(ML;;NW;;;HI) | 8192 | 0x3 | denied 0x3 | 0x2
MAXIMUM_ALLOWED takes in what is left
D:(A;;FA;;;BU)S:(ML;;NW;;;HI) | 8192 | 0x2000000 | granted 0x1200a9 | 0xdff56
D:(A;;FA;;;BU)S:(ML;;NWNRNX;;;HI) | 8192 | 0x2000000 | denied 0x2000000 | 0x1fffff
D:(A;;FA;;;BU)S:(ML;;NW;;;HI) | 8192 | 0x2000002 | denied 0x2 | 0xdff56
a request without an answer has none
D:(A;;FA;;;BU)S:(ML;;NWNRNX;;;HI) | 8192 | 0x200001 | reserved 0x200000 | 0x0
D:(A;;FA;;;BU)S:(ML;;NWNRNX;;;HI) | 8192 | 0x0 | empty | 0x0
";

/// Questions about whole descriptors: the descriptor, the object types asked about, whom PRINCIPAL SELF stands for,
/// groups of the user, the client's level, a mask, the verdict by the mapping of files. Signs and claims are those of
/// `ROWS`.
pub(crate) const ACCESS: &str = "\
an object allow is for its type alone
D:(OA;;FR;$;;BU) | ~ ^ $ | - | BU | 8192 | 0x1 | granted 0x1
D:(OA;;FR;$;;BU) | - | - | BU | 8192 | 0x1 | denied 0x1
a condition asks about claims of the client and of the object's resource attributes (2.4.4.15)
D:(XA;;FR;;;BU;(@User.Grade >= @Resource.Grade))S:(RA;;;;;WD;(\"Grade\",TI,0,4)) | - | - | BU | 8192 | 0x1 | granted 0x1
D:(XA;;FR;;;BU;(@User.Grade >= @Resource.Grade))S:(RA;;;;;WD;(\"Grade\",TI,0,6)) | - | - | BU | 8192 | 0x1 | denied 0x1
D:(XA;;FR;;;BU;(@User.Grade >= @Resource.Grade)) | - | - | BU | 8192 | 0x1 | denied 0x1
D:(XA;;FR;;;BU;(@Resource.A == 1))S:(AU;SA;FA;;;WD)(RA;;;;;WD;(\"A\",TI,0,1)) | - | - | BU | 8192 | 0x1 | granted 0x1
an inherit-only resource attribute is for children alone
D:(XA;;FR;;;BU;(@Resource.One == 1))S:(RA;OIIO;;;;WD;(\"One\",TI,0,1)) | - | - | BU | 8192 | 0x1 | denied 0x1
a label takes from a client of a lower level
D:(A;;FA;;;BU)S:(ML;;NW;;;HI) | - | - | BU | 8192 | 0x3 | denied 0x2
D:(A;;FA;;;BU)S:(ML;;NW;;;HI) | - | - | BU | 12288 | 0x3 | granted 0x3
D:(A;;FA;;;BU) | - | - | BU | 4096 | 0x2000000 | granted 0x1200a9
PRINCIPAL SELF is whom the question names
D:(A;;FR;;;PS) | - | % | - | 8192 | 0x1 | granted 0x1
D:(A;;FR;;;PS) | - | - | - | 8192 | 0x1 | denied 0x1
all of these
D:(ZA;;FA;$;;PS;(@Resource.A == 1))S:(ML;;NW;;;HI)(RA;;;;;WD;(\"A\",TI,0,1)) | ~ $ | % | - | 8192 | 0x3 | denied 0x2
D:(ZA;;FA;$;;PS;(@Resource.A == 1))S:(ML;;NW;;;HI)(RA;;;;;WD;(\"A\",TI,0,1)) | ~ $ | % | - | 8192 | 0x1 | granted 0x1
";

/// Trees of object types: the levels of the nodes; a question about their types as in [`ROWS`]; the client's level; a
/// mask; the verdict on each node ([MS-DTYP] 2.5.3.2, ObjectTypeList): in hexadecimal `+` what is granted, `-` what is
/// missing, `!` what is reserved, and `0` where nothing is asked for.
pub(crate) const TYPES: &str = "\
what is allowed for the whole object is granted on each node
0 1 2 1 | D:(A;;0x10;;;BU) | ~ ^ $ # | - | BU | 8192 | 0x10 | +10 +10 +10 +10
0 1 2 1 | D:(OA;;0x10;~;;BU) | ~ ^ $ # | - | BU | 8192 | 0x10 | +10 +10 +10 +10
an allow for a property set is handed down to its properties
0 1 2 1 | D:(OA;;0x10;^;;BU) | ~ ^ $ # | - | BU | 8192 | 0x10 | -10 +10 +10 -10
and one for a property up, where each of its siblings has it
0 1 2 1 | D:(OA;;0x10;$;;BU) | ~ ^ $ # | - | BU | 8192 | 0x10 | -10 +10 +10 -10
0 1 2 2 | D:(OA;;0x10;$;;BU) | ~ ^ $ # | - | BU | 8192 | 0x10 | -10 -10 +10 -10
0 1 2 2 | D:(OA;;0x10;$;;BU)(OA;;0x10;#;;BU) | ~ ^ $ # | - | BU | 8192 | 0x10 | +10 +10 +10 +10
0 | D:(OA;;0x10;~;;BU) | ~ | - | BU | 8192 | 0x10 | +10
a deny for a property is handed up, and for another type it denies nothing
0 1 2 1 | D:(OD;;0x10;$;;BU)(A;;0x10;;;BU) | ~ ^ $ # | - | BU | 8192 | 0x10 | -10 -10 -10 +10
0 1 2 | D:(OD;;0x10;#;;BU)(A;;0x10;;;BU) | ~ ^ $ | - | BU | 8192 | 0x10 | +10 +10 +10
a deny behind the allow denies what isn't granted yet
0 1 2 1 | D:(A;;0x10;;;BU)(OD;;0x10;$;;BU) | ~ ^ $ # | - | BU | 8192 | 0x10 | +10 +10 +10 +10
0 1 2 2 | D:(OA;;0x10;$;;BU)(OD;;0x10;^;;BU)(A;;0x10;;;BU) | ~ ^ $ # | - | BU | 8192 | 0x10 | -10 -10 +10 -10
each right by itself
0 1 2 1 | D:(A;;0x10;;;BU)(OA;;0x20;$;;BU) | ~ ^ $ # | - | BU | 8192 | 0x30 | -20 +30 +30 -20
with MAXIMUM_ALLOWED what all leaves have
0 1 2 1 | D:(A;;0x10;;;BU)(OA;;0x20;$;;BU) | ~ ^ $ # | - | BU | 8192 | 0x2000000 | +10 +30 +30 +10
0 1 1 | D:(OA;;0x10;$;;BU)(OA;;0x20;#;;BU) | ~ $ # | - | BU | 8192 | 0x2000000 | -2000000 +10 +20
0 1 1 | D:(OA;;0x30;$;;BU)(OA;;0x20;#;;BU) | ~ $ # | - | BU | 8192 | 0x2000010 | -10 +30 -10
conditions, PRINCIPAL SELF, labels and owners as for a chain
0 1 2 | D:(ZA;;0x10;$;;BU;(@User.Grade == 5)) | ~ ^ $ | - | BU | 8192 | 0x10 | +10 +10 +10
0 1 | D:(OA;;0x10;$;;PS) | ~ $ | % | BU | 8192 | 0x10 | +10 +10
0 1 | D:(A;;0x30;;;BU)S:(ML;;NW;;;HI) | ~ $ | - | BU | 8192 | 0x30 | -10 -10
0 1 1 | O:%D: | ~ $ # | - | BU | 8192 | 0x20000 | +20000 +20000 +20000
requests without a bit, and with a reserved one
0 1 1 | D:(A;;0x10;;;BU) | ~ $ # | - | BU | 8192 | 0x0 | 0 0 0
0 1 1 | D:(A;;0x10;;;BU) | ~ $ # | - | BU | 8192 | 0x200000 | !200000 !200000 !200000";

/// Lists of nodes, each with its level and a byte of its type; how many are before the first that can't stand there,
/// and why.
pub(crate) const NO_TREES: &str = "\
- | 0 1 NoClass
1:1 | 0 2 LevelLeftOut
0:1 2:2 | 1 2 LevelLeftOut
0:1 1:2 3:3 | 2 2 LevelLeftOut
0:1 0:2 | 1 3 SecondClass
0:1 1:2 2:3 3:4 4:5 5:6 | 5 4 TooDeep
0:1 1:2 1:2 | 2 5 Repeated
0:1 1:1 | 1 5 Repeated
0:1 1:2 2:3 1:4 2:5 | a tree";
