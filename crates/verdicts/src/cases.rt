// The clearings that are judged: for each market file the clearing files over it. The text beside each file has its records.
pub struct Cases {
    pub market: &'static str,
    pub clearings: &'static [&'static str],
}

pub const CASES: [Cases; 14] = [
    Cases {
        market: "plain.bin",
        clearings: &[
            "nothing.bin",
            "full.bin",
            "full-6999.bin",
            "full-9000.bin",
            "full-9001.bin",
            "half.bin",
            "oversold.bin",
        ],
    },
    Cases {
        market: "linked.bin",
        clearings: &[
            "split-parents.bin",
            "child-without-parent.bin",
            "child-beyond-parent.bin",
            "substitutes-together.bin",
            "family-together.bin",
            "loop-in-part.bin",
            "loop-second-only.bin",
            "unit-twice.bin",
            "short.bin",
            "child-loses.bin",
            "substitute-loses.bin",
            "basket-loses.bin",
            "loop-loses.bin",
            "loop-even.bin",
            "buy-overcharged.bin",
            "whole-day.bin",
        ],
    },
    Cases {
        market: "welfare.bin",
        clearings: &["welfare-80.bin"],
    },
    Cases {
        market: "either1.bin",
        clearings: &["to-response.bin", "to-reserve-1190.bin"],
    },
    Cases {
        market: "either2.bin",
        clearings: &["to-response.bin", "to-reserve-1210.bin"],
    },
    Cases {
        market: "either3.bin",
        clearings: &["to-response.bin", "to-reserve-1200.bin", "to-both.bin"],
    },
    Cases {
        market: "paradox.bin",
        clearings: &["both-28.bin", "both-30.bin", "both-51.bin"],
    },
    Cases {
        market: "overholding.bin",
        clearings: &["fifteen.bin", "thirty.bin"],
    },
    Cases {
        market: "unpermitted.bin",
        clearings: &["thirty.bin"],
    },
    Cases {
        market: "order.bin",
        clearings: &["shared-in-order.bin", "unshared-in-order.bin"],
    },
    Cases {
        market: "basket.bin",
        clearings: &["shared-in-basket.bin", "parent-alone.bin"],
    },
    Cases {
        market: "loop.bin",
        clearings: &["shared-in-loop.bin", "parent-alone.bin"],
    },
    Cases {
        market: "unlooped.bin",
        clearings: &["shared-in-loop.bin"],
    },
    Cases {
        market: "plain.bin",
        clearings: &[
            "not-rising.bin",
            "parts-after-prices.bin",
            "too-many-parts.bin",
            "no-such-order.bin",
            "no-such-product.bin",
            "no-parts.bin",
            "cut-short.bin",
        ],
    },
];
