// The meaning of each failed rule.

use hv_policy::Rule;

/// The meaning of a failed rule, in one sentence without its period.
pub fn sentence(rule: Rule) -> &'static str {
    match rule {
        Rule::CallerExists => "the caller's partition doesn't exist",
        Rule::CallerActive => "the caller's partition isn't Active",
        Rule::CallerVpExists => "the caller's virtual processor doesn't exist",
        Rule::CallCode => "no call has this code",
        Rule::InputValue => "the input value isn't one of this call",
        Rule::Alignment => "a list isn't aligned or crosses a page",
        Rule::Parameters => "a parameter is malformed",
        Rule::Privilege => "the caller lacks the call's privilege",
        Rule::TargetExists => "the target doesn't exist",
        Rule::TargetScope => "the call doesn't reach this target",
        Rule::PropertyKnown => "no property has this code",
        Rule::TargetState => "the target's life state doesn't allow the call",
        Rule::NoChildren => "the target has children",
        Rule::Depth => "the new partition would be too deep",
        Rule::PeerExists => "the other partition isn't a right one",
        Rule::Connection => "the connection id is missing or taken",
        Rule::Port => "the port is missing or its id is taken",
        Rule::Entitlement => "the mask, the privilege or the peer isn't right",
        Rule::VpExists => "the virtual processor is missing or its index can't be used",
        Rule::PropertyRange => "the property's value is out of range",
        Rule::Operand => "the page, register, type or number isn't right",
        Rule::VpReady => "no virtual processor is ready",
        Rule::PortRoom => "the port has as many messages as it may",
        Rule::Pages => "too few pages are available",
        Rule::MsrKnown => "no register has this MSR number",
        Rule::MsrPrivilege => "the caller lacks the register's privilege",
        Rule::MsrWrite => "the register doesn't take this value",
    }
}
