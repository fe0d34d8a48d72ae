ghost use Rattle.std.specs.Prelude.{◌≡◌, find, option_copied};
ghost use Rattle.slnf_fw_table.specs.Rules.{is_permitted, matches};

use crate::rules::{Opening, Rule};

/// Whether the rules permit a connection that opens so: the `permit` of the first rule that matches, and
/// false where none does. A rule matches where the directions are equal, its protocol is 0 or equal, both
/// prefixes contain the addresses, and the destination port is in its range.
pub fn permits(rules: &[Rule], opening: &Opening) -> bool
    ensures { result ≡ is_permitted rules.now opening.now }
{
    match first_match(rules, opening) {
        Some(rule) => rule.permit,
        None => false,
    }
}

// The first rule that matches.
fn first_match<'a>(rules: &'a [Rule], opening: &Opening) -> Option<&'a Rule>
    ensures { option_copied result ≡ find (matches opening.now) rules.now }
{
    rules.iter().find(|rule| rule.matches(opening))
}

#[cfg(test)]
mod tests {
    use super::*;

    #[test]
    fn the_first_rule_that_matches_decides(rt: HostRuntime) {
        let all = Rule {
            permit: true,
            outbound: true,
            proto: 0,
            source: 0,
            source_bits: 0,
            dest: 0,
            dest_bits: 0,
            low: 0,
            high: 65535,
        };
        let no_mail = Rule {
            permit: false,
            outbound: true,
            proto: 6,
            source: 0,
            source_bits: 0,
            dest: 0,
            dest_bits: 0,
            low: 25,
            high: 25,
        };
        let web = Opening {
            outbound: true,
            proto: 6,
            source: 0x0a00_0005,
            dest: 0xc633_6407,
            dest_port: 80,
        };
        let mail = Opening {
            dest_port: 25,
            ..web
        };
        assert!(rt; permits(&[no_mail, all], &web));
        assert!(rt; !permits(&[no_mail, all], &mail));
        assert!(rt; permits(&[all, no_mail], &mail));
        assert!(rt; !permits(&[no_mail], &web));
    }
}
