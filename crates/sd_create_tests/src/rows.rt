//! New objects, and what [MS-DTYP] 2.5.3.4 makes of them.

/// Each object: its parent's descriptor; what the creator gave; its kind and classes and the words of `flag_of`; then
/// its descriptor and the control bits that have no keyword, or the fault. A line without columns says why for the rows
/// after it. `%` stands for the user, S-1-5-21-1-2-3-1001, which with BA may be the owner, `$` for its primary group,
/// S-1-5-21-1-2-3-513, `~` for the class user, and `#` for the class group; the token's default DACL is
/// D:(A;;GA;;;%)(A;;GR;;;$).
pub(crate) const ROWS: &str = "\
owner and group are the creator's, else the parent's where that is asked for, else the token's
- | O:BAG:SYD:(A;;FR;;;WD) | object | O:BAG:SYD:(A;;FR;;;WD) | 0x0
- | O:BAD:(A;;FR;;;WD) | object | O:BAG:$D:(A;;FR;;;WD) | 0x2
O:BAG:SYD: | D:(A;;FR;;;WD) | object | O:%G:$D:(A;;FR;;;WD) | 0x3
O:BAG:SYD: | D:(A;;FR;;;WD) | object owner | O:BAG:$D:(A;;FR;;;WD) | 0x3
O:BAG:SYD: | D:(A;;FR;;;WD) | object group | O:%G:SYD:(A;;FR;;;WD) | 0x3
O:BAG:SYD: | O:%G:BUD:(A;;FR;;;WD) | object owner group | O:%G:BUD:(A;;FR;;;WD) | 0x0
the creator's owner has to be one that the token may set
- | O:SYG:SYD: | object | refused | Owner
- | O:SYG:SYD: | object avoid | O:SYG:SYD: | 0x0
- | O:SYG:SYD: | object restore | O:SYG:SYD: | 0x0
O:SYG:SYD: | G:SYD: | object owner | O:SYG:SYD: | 0x1
a parent without an owner or a group gives none
D: | - | object owner | refused | NoOwner
O:BAD: | - | object owner group | refused | NoGroup
- | - | object owner | refused | NoOwner
nothing is given or inherited: the token's DACL, and no SACL
- | - | object | O:%G:$D:(A;;FA;;;%)(A;;FR;;;$) | 0xb
D:(A;;FR;;;WD)S:(AU;SA;FR;;;WD) | - | container auto audit | O:%G:$D:(A;;FA;;;%)(A;;FR;;;$) | 0xb
nothing is given: what the parent's list hands on, marked as inherited
D:(A;OI;FR;;;WD)(A;;FA;;;BA) | - | object auto | O:%G:$D:AI(A;ID;FR;;;WD) | 0x3
D:(A;OICI;FR;;;WD) | - | object | O:%G:$D:(A;ID;FR;;;WD) | 0x3
D:(A;OICI;FR;;;WD) | - | container auto | O:%G:$D:AI(A;OICIID;FR;;;WD) | 0x3
D:(A;CINP;FR;;;WD)(A;OI;FW;;;BU)(D;OINP;FW;;;BG) | - | container auto | O:%G:$D:AI(A;ID;FR;;;WD)(A;OIIOID;FW;;;BU) | 0x3
D:(A;OINP;FR;;;WD) | - | object auto | O:%G:$D:AI(A;ID;FR;;;WD) | 0x3
D:(A;OICIIO;GA;;;CO) | - | object auto | O:%G:$D:AI(A;ID;FA;;;%) | 0x3
D:(A;OICIIO;GA;;;CO) | - | container auto | O:%G:$D:AI(A;ID;FA;;;%)(A;OICIIOID;GA;;;CO) | 0x3
D:(A;OICI;FR;;;CG) | O:BAG:SY | container auto | O:BAG:SYD:AI(A;ID;FR;;;SY)(A;OICIIOID;FR;;;CG) | 0x0
also where that is nothing for the object's kind, the token's list is not taken
D:(A;CI;FR;;;WD) | - | object auto | O:%G:$D:AI | 0x3
what is given stands before what is inherited, without entries that were inherited elsewhere
D:(A;OI;FR;;;WD) | D:(A;;FR;;;BG)(A;ID;FR;;;BU) | object auto | O:%G:$D:AI(A;;FR;;;BG)(A;ID;FR;;;WD) | 0x3
D:(A;OI;FR;;;WD) | D:(A;;FR;;;BG)(A;ID;FR;;;BU) | object | O:%G:$D:(A;;FR;;;BG) | 0x3
D:(A;;FR;;;WD) | D:(A;;FR;;;BG)(A;ID;FR;;;BU) | object auto | O:%G:$D:(A;;FR;;;BG) | 0x3
D:(A;OI;FR;;;WD) | D: | object auto | O:%G:$D:AI(A;ID;FR;;;WD) | 0x3
a protected list takes nothing, nor does a null one
D:(A;OI;FR;;;WD) | D:P(A;;FR;;;BG)(A;ID;FR;;;BU) | object auto | O:%G:$D:P(A;;FR;;;BG) | 0x3
D:(A;OI;FR;;;WD) | D:NO_ACCESS_CONTROL | object auto | O:%G:$D:NO_ACCESS_CONTROL | 0x3
a list that counts only for lack of entries to inherit
D:(A;OI;FR;;;WD) | D:P(A;;FR;;;BG) | object auto default | O:%G:$D:AI(A;ID;FR;;;WD) | 0x3
D:(A;;FR;;;WD) | D:P(A;;FR;;;BG) | object auto default | O:%G:$D:P(A;;FR;;;BG) | 0x3
generic rights and the creator's SIDs of what is given count as what they stand for; a container hands them on
- | D:(A;;GR;;;CO)(D;;GW;;;CG) | object | O:%G:$D:(A;;FR;;;%)(D;;FW;;;$) | 0x3
- | D:(A;CI;GR;;;CO) | container | O:%G:$D:(A;;FR;;;%)(A;CIIO;GR;;;CO) | 0x3
- | D:(A;OINP;FR;;;CG) | container | O:%G:$D:(A;;FR;;;$)(A;OINPIO;FR;;;CG) | 0x3
- | D:(A;CI;FR;;;WD)(A;CIIO;GR;;;CO) | container | O:%G:$D:(A;CI;FR;;;WD)(A;CIIO;GR;;;CO) | 0x3
- | D:(A;OICI;GR;;;CO) | object | O:%G:$D:(A;OICI;FR;;;%) | 0x3
entries for a class count for objects of it, and wait in containers of others
D:(OA;CI;FR;;~;WD) | - | container auto ~ | O:%G:$D:AI(OA;CIID;FR;;~;WD) | 0x3
D:(OA;CI;FR;;~;WD) | - | container auto # | O:%G:$D:AI(OA;CIIOID;FR;;~;WD) | 0x3
D:(OA;CI;FR;;~;WD) | - | container auto # ~ | O:%G:$D:AI(OA;CIID;FR;;~;WD) | 0x3
D:(OA;CI;GR;;~;CO) | - | container auto ~ | O:%G:$D:AI(OA;ID;FR;;~;%)(OA;CIIOID;GR;;~;CO) | 0x3
D:(OA;CINP;FR;;~;WD)(OD;CI;FR;~;;WD) | - | container auto | O:%G:$D:AI(OD;CIID;FR;~;;WD) | 0x3
D:(OA;OI;FR;;~;WD)(OD;OI;FW;;#;WD) | - | object auto ~ | O:%G:$D:AI(OA;ID;FR;;~;WD) | 0x3
conditions come along
D:(XA;OI;GR;;;CO;(a == 1)) | - | object auto | O:%G:$D:AI(XA;ID;FR;;;%;(a == 1)) | 0x3
the SACL likewise, by its own bits
S:(AU;OICISAFA;GW;;;WD) | D: | object audit | O:%G:$D:S:AI(AU;IDSAFA;FW;;;WD) | 0x3
S:(AU;OICISA;FW;;;WD)(ML;CI;NW;;;HI) | D: | container audit | O:%G:$D:S:AI(AU;OICIIDSA;FW;;;WD)(ML;CIID;NW;;;HI) | 0x3
S:(AU;OISA;FW;;;WD) | D:S:P(AU;FA;FR;;;BG) | object audit | O:%G:$D:S:P(AU;FA;FR;;;BG) | 0x3
S:(AU;OISA;FW;;;WD) | D:PS:(AU;FA;FR;;;BG) | object audit | O:%G:$D:PS:AI(AU;FA;FR;;;BG)(AU;IDSA;FW;;;WD) | 0x3
S:(AU;OISA;FW;;;WD) | D:S:(AU;FA;FR;;;BG) | object auto | O:%G:$D:S:(AU;FA;FR;;;BG) | 0x3";

/// Each object whose container's descriptor changed: that; its own descriptor; its kind and classes; then its
/// descriptor after it inherited again, or the fault. The signs are those of `ROWS`, and `^` stands for O:%G:$.
pub(crate) const LATER: &str = "\
what is inherited takes the place of what was, after the object's own entries, which stay in their order
D:(A;OICI;FR;;;WD) | ^D:AI(D;;FW;;;BG)(A;ID;FR;;;BU)(A;;FA;;;%) | object | ^D:AI(D;;FW;;;BG)(A;;FA;;;%)(A;ID;FR;;;WD)
D:(A;OICI;FR;;;WD) | ^D:AI(D;;FW;;;BG)(A;ID;FR;;;BU) | container | ^D:AI(D;;FW;;;BG)(A;OICIID;FR;;;WD)
D:(A;OI;FR;;;WD)(D;OI;FW;;;BG)(A;CI;FA;;;BU) | ^D:(A;;FA;;;%) | object | ^D:AI(A;;FA;;;%)(A;ID;FR;;;WD)(D;ID;FW;;;BG)
D:(A;CI;FR;;;WD) | ^D:(A;CI;GA;;;CO)(A;OIIO;GR;;;CG) | container | ^D:AI(A;CI;GA;;;CO)(A;OIIO;GR;;;CG)(A;CIID;FR;;;WD)
what is passed down no more goes
D:(A;;FR;;;WD) | ^D:AI(A;;FA;;;%)(A;ID;FR;;;WD) | object | ^D:AI(A;;FA;;;%)
O:BA | ^D:AI(A;ID;FR;;;WD)S:AI(AU;IDSA;FW;;;WD) | object | ^D:AIS:AI
D:NO_ACCESS_CONTROL | ^D:(A;ID;FR;;;WD) | object | ^D:
CREATOR OWNER and CREATOR GROUP are the object's own
D:(A;OICIIO;GA;;;CO) | ^D:AI(A;ID;FA;;;BA)(A;OICIIOID;GA;;;CO) | container | ^D:AI(A;ID;FA;;;%)(A;OICIIOID;GA;;;CO)
D:(A;OI;GR;;;CG) | ^D:AI | object | ^D:AI(A;ID;FR;;;$)
D: | G:$D: | object | NoOwner
D: | O:%D: | object | NoGroup
a protected list stays as it is, and so does a null one
D:(A;OI;FR;;;WD) | ^D:PAI(A;;FA;;;%)(A;ID;FR;;;BU) | object | ^D:PAI(A;;FA;;;%)(A;ID;FR;;;BU)
D:(A;OI;FR;;;WD) | ^D:P | object | ^D:P
D:(A;OI;FR;;;WD) | ^D:NO_ACCESS_CONTROL | object | ^D:NO_ACCESS_CONTROL
where there is none, it is what is inherited, as at creation
D:(A;OI;FR;;;WD) | ^ | object | ^D:AI(A;ID;FR;;;WD)
D:(A;CI;FR;;;WD) | ^ | object | ^D:AI
D:(A;;FR;;;WD) | ^ | object | ^
the SACL likewise, by its own bits
S:(AU;OISA;FW;;;WD) | ^D:P(A;;FA;;;%) | object | ^D:P(A;;FA;;;%)S:AI(AU;IDSA;FW;;;WD)
D:(A;OI;FR;;;WD)S:(AU;OISA;FW;;;WD) | ^D:PS:(AU;FA;FR;;;BG)(AU;IDFA;FR;;;BU) | object \
| ^D:PS:AI(AU;FA;FR;;;BG)(AU;IDSA;FW;;;WD)
D:(A;OI;FR;;;WD)S:(AU;OISA;FW;;;WD) | ^D:S:P(AU;IDFA;FR;;;BU) | object | ^D:AI(A;ID;FR;;;WD)S:P(AU;IDFA;FR;;;BU)
entries for a class, and with conditions, as at creation
D:(OA;CI;FR;;~;WD) | ^D:AI | container ~ | ^D:AI(OA;CIID;FR;;~;WD)
D:(OA;CI;FR;;~;WD) | ^D:AI | container # | ^D:AI(OA;CIIOID;FR;;~;WD)
D:(XA;OI;GR;;;CO;(a == 1)) | ^D:(XA;;FA;;;BU;(b == 2))(XA;ID;FA;;;BU;(c == 3)) | object \
| ^D:AI(XA;;FA;;;BU;(b == 2))(XA;ID;FR;;;%;(a == 1))";
