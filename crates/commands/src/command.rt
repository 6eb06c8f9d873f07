// The commands of a stream, and how their bytes are read: a command byte, then operands of fixed widths,
// numbers of two bytes with the high byte first. Each command has a parser of its own, whose pattern names its
// operands byte by byte.
ghost use Rattle.std.specs.Prelude.{◌≡◌};
ghost use Rattle.commands.specs.Format.{parsed, open_operands, close_operands, grant_operands, withdraw_operands, policy_operands, request_operands, read};

use rights::Call;

// Why no command can be read.
#[derive(Clone, Copy, Debug, PartialEq, Eq)]
pub enum Unread {
    Unknown,
    CutOff,
}

// The command at the front of the bytes, and the bytes behind it.
pub(crate) fn parse(bytes: &[u8]) -> Result<(Call, &[u8]), Unread>
    ensures { read result ≡ parsed bytes.now }
{
    let [command, operands @ ..] = bytes else {
        return Err(Unread::CutOff);
    };
    match *command {
        1 => parse_open(operands),
        2 => parse_close(operands),
        3 => parse_grant(operands),
        4 => parse_withdraw(operands),
        5 => parse_policy(operands),
        6 => parse_request(operands),
        _ => Err(Unread::Unknown),
    }
}

fn parse_open(operands: &[u8]) -> Result<(Call, &[u8]), Unread>
    ensures { read result ≡ open_operands operands.now }
{
    let [d1, d0, o1, o0, policy, c1, c0, rest @ ..] = operands else {
        return Err(Unread::CutOff);
    };
    let open = Call::Open {
        draft: u16::from_be_bytes([*d1, *d0]),
        owner: u16::from_be_bytes([*o1, *o0]),
        policy: *policy,
        cells: u16::from_be_bytes([*c1, *c0]),
    };
    Ok((open, rest))
}

fn parse_close(operands: &[u8]) -> Result<(Call, &[u8]), Unread>
    ensures { read result ≡ close_operands operands.now }
{
    let [d1, d0, c1, c0, rest @ ..] = operands else {
        return Err(Unread::CutOff);
    };
    let close = Call::Close {
        draft: u16::from_be_bytes([*d1, *d0]),
        caller: u16::from_be_bytes([*c1, *c0]),
    };
    Ok((close, rest))
}

fn parse_grant(operands: &[u8]) -> Result<(Call, &[u8]), Unread>
    ensures { read result ≡ grant_operands operands.now }
{
    let [d1, d0, right, c1, c0, a1, a0, kind, rest @ ..] = operands else {
        return Err(Unread::CutOff);
    };
    let grant = Call::Grant {
        draft: u16::from_be_bytes([*d1, *d0]),
        right: *right,
        caller: u16::from_be_bytes([*c1, *c0]),
        account: u16::from_be_bytes([*a1, *a0]),
        kind: *kind,
    };
    Ok((grant, rest))
}

fn parse_withdraw(operands: &[u8]) -> Result<(Call, &[u8]), Unread>
    ensures { read result ≡ withdraw_operands operands.now }
{
    let [d1, d0, right, c1, c0, a1, a0, rest @ ..] = operands else {
        return Err(Unread::CutOff);
    };
    let withdraw = Call::Withdraw {
        draft: u16::from_be_bytes([*d1, *d0]),
        right: *right,
        caller: u16::from_be_bytes([*c1, *c0]),
        account: u16::from_be_bytes([*a1, *a0]),
    };
    Ok((withdraw, rest))
}

fn parse_policy(operands: &[u8]) -> Result<(Call, &[u8]), Unread>
    ensures { read result ≡ policy_operands operands.now }
{
    let [d1, d0, c1, c0, policy, rest @ ..] = operands else {
        return Err(Unread::CutOff);
    };
    let set = Call::Policy {
        draft: u16::from_be_bytes([*d1, *d0]),
        caller: u16::from_be_bytes([*c1, *c0]),
        policy: *policy,
    };
    Ok((set, rest))
}

fn parse_request(operands: &[u8]) -> Result<(Call, &[u8]), Unread>
    ensures { read result ≡ request_operands operands.now }
{
    let [d1, d0, right, a1, a0, rest @ ..] = operands else {
        return Err(Unread::CutOff);
    };
    let request = Call::Request {
        draft: u16::from_be_bytes([*d1, *d0]),
        right: *right,
        account: u16::from_be_bytes([*a1, *a0]),
    };
    Ok((request, rest))
}
