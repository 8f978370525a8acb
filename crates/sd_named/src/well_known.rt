//! The accounts that need no file.

/// The accounts that Windows has everywhere ([MS-DTYP] 2.4.2.4), as lines of an accounts file; SYSTEM is in
/// Administrators.
pub const WELL_KNOWN: &str = "
group S-1-1-0 Everyone
group S-1-2-0 LOCAL
group S-1-3-0 CREATOR OWNER
group S-1-3-1 CREATOR GROUP
group S-1-5-2 NT AUTHORITY\\NETWORK
group S-1-5-3 NT AUTHORITY\\BATCH
group S-1-5-4 NT AUTHORITY\\INTERACTIVE
group S-1-5-6 NT AUTHORITY\\SERVICE
user S-1-5-7 NT AUTHORITY\\ANONYMOUS LOGON
group S-1-5-9 NT AUTHORITY\\ENTERPRISE DOMAIN CONTROLLERS
group S-1-5-10 NT AUTHORITY\\SELF
group S-1-5-11 NT AUTHORITY\\Authenticated Users
group S-1-5-12 NT AUTHORITY\\RESTRICTED
group S-1-5-13 NT AUTHORITY\\TERMINAL SERVER USER
group S-1-5-14 NT AUTHORITY\\REMOTE INTERACTIVE LOGON
group S-1-5-15 NT AUTHORITY\\This Organization
user S-1-5-18 NT AUTHORITY\\SYSTEM
user S-1-5-19 NT AUTHORITY\\LOCAL SERVICE
user S-1-5-20 NT AUTHORITY\\NETWORK SERVICE
group S-1-5-32-544 BUILTIN\\Administrators
group S-1-5-32-545 BUILTIN\\Users
group S-1-5-32-546 BUILTIN\\Guests
group S-1-5-32-547 BUILTIN\\Power Users
group S-1-5-32-548 BUILTIN\\Account Operators
group S-1-5-32-549 BUILTIN\\Server Operators
group S-1-5-32-550 BUILTIN\\Print Operators
group S-1-5-32-551 BUILTIN\\Backup Operators
group S-1-5-32-552 BUILTIN\\Replicator
group S-1-5-32-554 BUILTIN\\Pre-Windows 2000 Compatible Access
group S-1-5-32-555 BUILTIN\\Remote Desktop Users
group S-1-5-32-580 BUILTIN\\Remote Management Users
member S-1-5-32-544 S-1-5-18
";
