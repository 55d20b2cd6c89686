//! The canonical text of a machine.
use crate::*;
use std::test::*;

const WHOLE: &str = concat!(
    "layout = \"packed\"\n",
    "size = 3\n",
    "features = [\"indirect\", \"in_order\"]\n",
    "window = 64\n",
    "start = \"shadow\"\n",
    "iova_first = 0\n",
    "iova_last = 9223372036854775807\n",
    "regions = [{ addr = 9223372036854775807, size = 1 }, { addr = 0, size = 8192 }]\n",
    "queues = [[\"3*r4096+10 w4096+64\", \"w9223372036854775807+1\"], [], [\"r0+1\"]]\n",
    "switches = [{ after = 5, to = \"pass\" }, { after = 5, to = \"renew\" }, { after = 4294967295, to = \"shadow\" }]\n",
);

const SHUFFLED: &str = concat!(
    "# a comment\n",
    "queues = [['03*r4096+10 w04096+064', \"1*w9223372036854775807+1\"], [], [\"r0+1\"]]\n",
    "window = 0x40\n",
    "size = 3\n",
    "start = 'shadow'\n",
    "iova_last = 9223372036854775807\n",
    "iova_first = 0\n",
    "features = [\"in_order\", \"indirect\"]\n",
    "\n",
    "layout = \"packed\"\n",
    "[[regions]]\n",
    "size = 1\n",
    "addr = 9223372036854775807\n",
    "[[regions]]\n",
    "addr = 0\n",
    "size = 8192\n",
    "[[switches]]\n",
    "to = 'pass'\n",
    "after = 0x5\n",
    "[[switches]]\n",
    "to = 'renew'\n",
    "after = 5\n",
    "[[switches]]\n",
    "after = 4_294_967_295\n",
    "to = \"shadow\"\n",
);

const SHORT: &str = concat!(
    "layout = \"split\"\n",
    "size = 4\n",
    "regions = [{ addr = 4096, size = 8192 }]\n",
    "queues = [[\"r4096+10 w8192+64\"]]\n",
);

const DEFAULTS: &str = concat!(
    "layout = \"split\"\n",
    "size = 4\n",
    "features = []\n",
    "window = 1\n",
    "start = \"pass\"\n",
    "iova_first = 4096\n",
    "iova_last = 281474976710655\n",
    "regions = [{ addr = 4096, size = 8192 }]\n",
    "queues = [[\"r4096+10 w8192+64\"]]\n",
    "switches = []\n",
);

const NOTHING: &str = "layout = \"split\"\nsize = 2\nregions = []\nqueues = [[]]";

const LEAST: &str = concat!(
    "layout = \"split\"\n",
    "size = 2\n",
    "features = []\n",
    "window = 1\n",
    "start = \"pass\"\n",
    "iova_first = 4096\n",
    "iova_last = 281474976710655\n",
    "regions = []\n",
    "queues = [[]]\n",
    "switches = []\n",
);

#[test]
fn each_key_has_its_line(rt: HostRuntime) -> Result<(), Fail> {
    for (file, want) in [
        (SHORT, DEFAULTS),
        (DEFAULTS, DEFAULTS),
        (WHOLE, WHOLE),
        (SHUFFLED, WHOLE),
        (NOTHING, LEAST),
    ] {
        let machine = Machine::read(rt.alloc(), file.as_bytes())?;
        let mut text = Vec::new(rt.alloc());
        machine.print(rt.alloc(), &mut text)?;
        assert!(rt; text.as_slice() == want.as_bytes(), "at {file}");
    }
    Ok(())
}
